// What programs print on standard output.
#![tactic(auto)]

ghost use Rattle.std.specs.Prelude.{Some};
ghost use Rattle.std.specs.Fmt.{WritesOnOk};
ghost use Rattle.output.specs.Hex.{octet_text, hex_text};

use std::fmt;

// Octets that are printed as hexadecimal digits.
#[derive(Clone, Copy)]
pub struct Hex<'a>(pub &'a [u8]);

fn octet<W: fmt::Write>(f: &mut fmt::Formatter<W>, x: u8) -> fmt::Result
    ensures { WritesOnOk W.Write.write_str_gives f.old result (octet_text x) f.new }
{
    write!(f, "{x:02x}")
}

impl fmt::Display for Hex<'_> {
    ghost output = { λ h. Some (hex_text h.0.now) };

    fn fmt<W: fmt::Write>(&self, f: &mut fmt::Formatter<W>) -> fmt::Result {
        for x in self.0 {
            octet(f, *x)?;
        }
        Ok(())
    }
}
