// The code state in place: as the card driver keeps its hash state.
#![tactic(auto)]

ghost use Rattle.std.specs.Prelude.{◌≡◌};
ghost use Rattle.refusal.specs.Table.{number_of};
ghost use Rattle.mac.specs.Codes.{update as updated};

use mac::Code;
use refusal::Refusal;

// Takes a piece into a lent code state.
pub fn update(c: &mut Code, piece: &[u8]) -> Result<(), Refusal>
    ensures { (number_of result ≡ (updated c.old piece.now).number)
        × (c.new ≡ (updated c.old piece.now).state) }
{
    *c = c.update(piece)?;
    Ok(())
}
