// The switch frame: 04, then id, branch position from 0, flags byte.
ghost use Rattle.std.specs.Prelude.{refl};
ghost use Rattle.record_lines.specs.Kinds.{switch, switch_from, switch_bytes};
ghost use Rattle.record_lines.specs.FramedLaws.{size};

use crate::field;
use crate::record::Record;
use network::error::Refusal;
use network::switch::Switch;

impl Record for Switch {
    ghost frame = { switch };

    ghost made = { switch_from };

    ghost faults = { switch_bytes };

    ghost KIND = { switch.kind };

    ghost SIZE = { size switch };

    const KIND: u8 = 4;

    const SIZE: usize = 12;

    // Flags other than bits 0 and 1 have no meaning.
    fn of_fields(fields: &[u8], place: u16) -> Result<Switch, Refusal> {
        let flags = field::byte(fields, 8);
        if flags > 3 {
            return Err(Refusal::Meaning { line: place });
        }
        Ok(Switch {
            id: field::word(fields, 0),
            branch_idx: field::word(fields, 4),
            normally_open: flags % 2 == 1,
            can_operate: flags / 2 % 2 == 1,
        })
    }

    ghost of_kind = { refl };

    ghost of_size = { refl };
}
