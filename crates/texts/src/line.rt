// The line of each kind of record, written at the front of a lent slice. What stands behind it stays, and a slice too short stays as it is.
ghost use Rattle.std.specs.Prelude.{◌≡◌, ◌≤◌, ◌+◌, ◌++◌, List, ℕ, length};
ghost use mathlib.Core.List.{flat_map};
ghost use Rattle.network.specs.Inside.{Each};
ghost use Rattle.slices.specs.Written.{written};
ghost use Rattle.record_lines.specs.Kinds.{head, bus, branch, switch, supply};
ghost use Rattle.record_lines.specs.LineAnswers.{head_of_code};
ghost use Rattle.printing.specs.LineTexts.{length_frame};
ghost use Rattle.frames.specs.Acceptable.{head_fields, bus_fields, branch_fields, switch_fields, supply_fields};
ghost use Rattle.texts.specs.LineLaws.{around};
ghost use Rattle.texts.specs.PartLaws.{Begun};
ghost use Rattle.texts.specs.Lines.{IsNumber, head_text, bus_text, branch_text, switch_text, supply_text};

use network::branch::Branch;
use network::bus::Bus;
use network::switch::Switch;
use record_lines::head::Head;
use record_lines::record::Record;
use record_lines::supply::Supply;
use slices::writer::{write_digits, write_line};

// A record whose line is written. The impls look alike: each puts the fields of its own kind together, and `write_all` is written once.
pub(crate) trait Line: Record {
    // The line, and whether the record's float, if it has one, has bits.
    ghost text: { Self → List ℕ };

    ghost has_bits: { Self → Type 0 };

    fn write(self, out: &mut [u8])
        requires { has_bits self }
        ensures { out.new ≡ written (text self) out.old };

    ghost long: { (x : Self) → length (text x) ≡ Self.Record.SIZE + 1 };
}

// The lines of these records behind the bytes that end at `at`, and where they end.
pub(crate) fn write_all<R: Line + Copy>(out: &mut [u8], at: usize, records: &[R]) -> usize
    requires { Each R.has_bits records.now × (at + length (flat_map R.text records.now) ≤ length out.old) }
    ensures { (bytes first : List ℕ) → Begun bytes first out.old at → Begun (bytes ++ flat_map R.text records.now) first out.new result }
{
    let mut end = at;
    for record in records {
        record.write(&mut out[end..]);
        end += R::SIZE + 1;
    }
    end
}

// Fields that stand side by side, as one number of so many digits.
#[derive(Clone, Copy)]
struct Digits {
    width: u8,
    number: u64,
}

// A line with a float in it: the fields before it, its bits, the fields behind it.
fn write_around(out: &mut [u8], before: Digits, bits: u64, behind: Digits)
    ensures { out.new ≡ written (around before.width before.number bits behind.width behind.number) out.old }
{
    let float = usize::from(before.width);
    let end = float + 16;
    if out.len() < end + usize::from(behind.width) + 1 {
        return;
    }
    write_digits(out, float, before.number);
    write_digits(&mut out[float..], 16, bits);
    write_line(&mut out[end..], behind.width, behind.number);
}

// Kind and counts before the base have 2 + 4 + 4 + 4 digits, the method and the iterations behind it 2 + 4.
impl Line for Head {
    ghost text = { λ h. head_text (head_of_code h) };

    ghost has_bits = { λ h. IsNumber h.base_mva };

    fn write(self, out: &mut [u8]) {
        let counts = 0x1_0000_0000 * u64::from(self.buses)
            + 0x1_0000 * u64::from(self.branches)
            + u64::from(self.switches);
        let before = Digits {
            width: 14,
            number: 0x1_0000_0000_0000 * u64::from(Head::KIND) + counts,
        };
        let method = u8::from(self.algorithm);
        let behind = Digits {
            width: 6,
            number: 0x1_0000 * u64::from(method) + u64::from(self.max_iterations),
        };
        write_around(out, before, self.base_mva.to_bits(), behind);
    }

    ghost long = { λ h. length_frame head (head_fields (head_of_code h)) };
}

// Kind and id have 2 + 4 digits; nothing stands behind the load.
impl Line for Bus {
    ghost text = { bus_text };

    ghost has_bits = { λ b. IsNumber b.pd.0 };

    fn write(self, out: &mut [u8]) {
        let before = Digits {
            width: 6,
            number: 0x1_0000 * u64::from(Bus::KIND) + u64::from(self.id),
        };
        let behind = Digits {
            width: 0,
            number: 0,
        };
        write_around(out, before, self.pd.0.to_bits(), behind);
    }

    ghost long = { λ b. length_frame bus (bus_fields b) };
}

// Kind and ends have 2 + 4 + 4 digits, the status behind r 2.
impl Line for Branch {
    ghost text = { branch_text };

    ghost has_bits = { λ b. IsNumber b.r };

    fn write(self, out: &mut [u8]) {
        let ends = 0x1_0000 * u64::from(self.from_bus) + u64::from(self.to_bus);
        let before = Digits {
            width: 10,
            number: 0x1_0000_0000 * u64::from(Branch::KIND) + ends,
        };
        let behind = Digits {
            width: 2,
            number: u64::from(self.status),
        };
        write_around(out, before, self.r.to_bits(), behind);
    }

    ghost long = { λ b. length_frame branch (branch_fields b) };
}

// All its fields are one number.
impl Line for Switch {
    ghost text = { switch_text };

    ghost has_bits = { λ s. Unit {0} };

    fn write(self, out: &mut [u8]) {
        let flags = u64::from(self.normally_open) + 2 * u64::from(self.can_operate);
        let fields = 0x100_0000 * u64::from(self.id) + 0x100 * u64::from(self.branch_idx) + flags;
        write_line(
            out,
            Switch::SIZE as u8,
            0x100_0000_0000 * u64::from(Switch::KIND) + fields,
        );
    }

    ghost long = { λ s. length_frame switch (switch_fields s) };
}

// Kind and id are one number.
impl Line for Supply {
    ghost text = { λ s. supply_text s.0 };

    ghost has_bits = { λ s. Unit {0} };

    fn write(self, out: &mut [u8]) {
        write_line(
            out,
            Supply::SIZE as u8,
            0x1_0000 * u64::from(Supply::KIND) + u64::from(self.0),
        );
    }

    ghost long = { λ s. length_frame supply (supply_fields s.0) };
}
