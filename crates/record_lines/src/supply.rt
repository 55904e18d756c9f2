// The supply frame of document 02: 05, then the id of the supply bus.
ghost use Rattle.std.specs.Prelude.{refl};
ghost use Rattle.record_lines.specs.Kinds.{supply, supply_bytes};
ghost use Rattle.record_lines.specs.FramedLaws.{size};
ghost use Rattle.record_lines.specs.LineAnswers.{supply_made};

use crate::field;
use crate::record::Record;
use network::error::Refusal;

// The id of the supply bus.
#[derive(Clone, Copy, Debug, PartialEq, Eq)]
pub struct Supply(pub u16);

impl Record for Supply {
    ghost frame = { supply };

    ghost made = { supply_made };

    ghost faults = { supply_bytes };

    ghost KIND = { supply.kind };

    ghost SIZE = { size supply };

    const KIND: u8 = 5;

    const SIZE: usize = 6;

    fn of_fields(fields: &[u8], _place: u16) -> Result<Supply, Refusal> {
        Ok(Supply(field::word(fields, 0)))
    }

    ghost of_kind = { refl };

    ghost of_size = { refl };
}
