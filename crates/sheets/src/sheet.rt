// A sheet, and the refusals of one: 9, 1, 2, 10, 4, 6.
ghost use Rattle.std.specs.Prelude.{◌≡◌, ℕ, ◌*◌, ◌≤◌, length, IfOk};
ghost use Rattle.rules.specs.Bits.{bits_of};
ghost use Rattle.rules.specs.Sheets.{header_in, end_at, sheet_checks};
ghost use Rattle.rules.specs.Numbers.{verdict};
ghost use Rattle.numbers.specs.Numbers.{number_in};
ghost use Rattle.sheets.specs.Sheet.{header_of, Sizes, Ready};

use crate::header::Header;
use numbers::Refusal;

// A sheet of sizes that a sheet may have, as long as they say.
#[derive(Clone, Copy)]
pub struct Sheet<'a> {
    pub bytes: &'a [u8],
    pub header: Header,
    pub ghost sizes: { Sizes (header_of header) },
    pub ghost whole: { end_at (header_of header) ≤ 8 * length bytes.now },
}

impl<'a> Sheet<'a> {
    // The sheet, where the answer has room bytes.
    #[tactic(auto, using(crate::proofs::NumberLaws::sheet_numbers))]
    pub fn read(bytes: &'a [u8], room: usize) -> Result<Sheet<'a>, Refusal>
        ensures number { number_in result ≡ verdict (sheet_checks bytes.now room) }
        ensures sheet { let h = header_in (bits_of bytes.now) in IfOk result (λ sheet. (sheet.bytes.now ≡ bytes.now) × (header_of sheet.header ≡ h) × Ready h bytes.now room) }
    {
        if bytes.len() < 16 {
            return Err(Refusal::Header);
        }
        let header = Header::read(bytes);
        header.head_check()?;
        if !header.told_good() {
            return Err(Refusal::Setting);
        }
        if !header.end_good(bytes) {
            return Err(Refusal::End);
        }
        if room < header.answer_len() {
            return Err(Refusal::Room);
        }
        let sheet = Sheet { bytes, header };
        if !sheet.lists_good() {
            return Err(Refusal::Entry);
        }
        Ok(sheet)
    }
}
