// The branch frame: 03, then from, to, r in per unit, status byte.
ghost use Rattle.std.specs.Prelude.{refl};
ghost use Rattle.record_lines.specs.Kinds.{branch, branch_from, branch_bytes};
ghost use Rattle.record_lines.specs.FramedLaws.{size};

use crate::field;
use crate::record::Record;
use network::branch::Branch;
use network::error::Refusal;

impl Record for Branch {
    ghost frame = { branch };

    ghost made = { branch_from };

    ghost faults = { branch_bytes };

    ghost KIND = { branch.kind };

    ghost SIZE = { size branch };

    const KIND: u8 = 3;

    const SIZE: usize = 28;

    // A status byte over 01 has no meaning.
    fn of_fields(fields: &[u8], place: u16) -> Result<Branch, Refusal> {
        let status = field::byte(fields, 24);
        if status > 1 {
            return Err(Refusal::Meaning { line: place });
        }
        Ok(Branch {
            from_bus: field::word(fields, 0),
            to_bus: field::word(fields, 4),
            r: field::float(fields, 8),
            status: status == 1,
        })
    }

    ghost of_kind = { refl };

    ghost of_size = { refl };
}
