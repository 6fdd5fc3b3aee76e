// What a sheet's length and end are refused for: 10.
ghost use Rattle.std.specs.Prelude.{◌≡◌};
ghost use Rattle.sheets.specs.Sheet.{header_of, Narrow, good_end};

use crate::header::Header;

impl Header {
    // The length of its sheet, and the spare bits at its end.
    pub fn end_good(self, s: &[u8]) -> bool
        requires { Narrow (header_of self) }
        ensures { result ≡ good_end (header_of self) s.now }
    {
        let ends = self.end_at();
        s.len() == ends.div_ceil(8) && (ends % 8 == 0 || s[ends / 8] % 16 == 0)
    }
}
