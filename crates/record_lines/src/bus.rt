// The bus frame: 02, then id and pd in MW.
ghost use Rattle.std.specs.Prelude.{refl};
ghost use Rattle.record_lines.specs.Kinds.{bus, bus_from, bus_bytes};
ghost use Rattle.record_lines.specs.FramedLaws.{size};

use crate::field;
use crate::record::Record;
use network::bus::{Bus, Power};
use network::error::Refusal;

impl Record for Bus {
    ghost frame = { bus };

    ghost made = { bus_from };

    ghost faults = { bus_bytes };

    ghost KIND = { bus.kind };

    ghost SIZE = { size bus };

    const KIND: u8 = 2;

    const SIZE: usize = 22;

    fn of_fields(fields: &[u8], _place: u16) -> Result<Bus, Refusal> {
        let id = field::word(fields, 0);
        let pd = field::float(fields, 4);
        Ok(Bus { id, pd: Power(pd) })
    }

    ghost of_kind = { refl };

    ghost of_size = { refl };
}
