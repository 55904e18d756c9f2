// The head frame: 01, then buses, branches, switches, base_mva, method byte, max_iterations.
ghost use Rattle.std.specs.Prelude.{◌≡◌, refl};
ghost use Rattle.network.specs.Answers.{answer_of, valued};
ghost use Rattle.lines.specs.Lines.{cut};
ghost use Rattle.record_lines.specs.Kinds.{head, head_from, head_bytes, head_line_faults, read_one, without};
ghost use Rattle.record_lines.specs.FramedLaws.{size};
ghost use Rattle.record_lines.specs.LineAnswers.{head_made, head_of_code};

use crate::field;
use crate::record::{Record, read_line};
use network::error::Refusal;
use network::switch::ReconfigAlgorithm;
use refusals::record::judge_head;

#[derive(Clone, Copy, Debug, PartialEq)]
pub struct Head {
    pub buses: u16,
    pub branches: u16,
    pub switches: u16,
    pub base_mva: f64,
    pub algorithm: ReconfigAlgorithm,
    pub max_iterations: u16,
}

impl Record for Head {
    ghost frame = { head };

    ghost made = { head_made };

    ghost faults = { head_bytes };

    ghost KIND = { head.kind };

    ghost SIZE = { size head };

    const KIND: u8 = 1;

    const SIZE: usize = 36;

    // "Methods: 00 exchange, 01 tabu, 02 exhaustive": a greater byte has no meaning.
    fn of_fields(fields: &[u8], place: u16) -> Result<Head, Refusal> {
        let method = field::byte(fields, 28);
        let Ok(algorithm) = ReconfigAlgorithm::try_from(method) else {
            return Err(Refusal::Meaning { line: place });
        };
        Ok(Head {
            buses: field::word(fields, 0),
            branches: field::word(fields, 4),
            switches: field::word(fields, 8),
            base_mva: field::float(fields, 12),
            algorithm,
            max_iterations: field::word(fields, 30),
        })
    }

    ghost of_kind = { refl };

    ghost of_size = { refl };
}

// The head of a text, from its first line, with refusals 1 to 5.
pub fn head_line(text: &[u8]) -> Result<Head, Refusal>
    ensures { valued head_of_code (answer_of result) ≡ without (read_one head head_from head_line_faults 1 (cut text.now)) }
{
    let head: Head = read_line(text, 0, 1)?;
    judge_head(
        head.buses,
        head.branches,
        head.switches,
        head.base_mva,
        head.max_iterations,
    )?;
    Ok(head)
}
