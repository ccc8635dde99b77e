// Bytes as hex digits.
ghost use Rattle.std.specs.Prelude.{Some};
ghost use Rattle.std.specs.List.{flat_map};
ghost use Rattle.script.specs.Hex.{hex_byte};

use std::fmt;

// Bytes, printed as two capital hex digits each.
#[derive(Clone, Copy)]
pub struct Hex<'a>(pub &'a [u8]);

impl fmt::Display for Hex<'_> {
    ghost output = { λ h. Some (flat_map hex_byte h.0.now) };

    #[tactic(auto, using(crate::proofs::Glyphs::hex_byte_shown))]
    fn fmt<W: fmt::Write>(&self, f: &mut fmt::Formatter<W>) -> fmt::Result {
        for &byte in self.0 {
            write!(f, "{byte:02X}")?;
        }
        Ok(())
    }
}
