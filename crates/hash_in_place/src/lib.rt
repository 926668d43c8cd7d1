// The hash state in place: "The card driver keeps one hash state and folds each piece into it in place."
#![tactic(auto)]

ghost use Rattle.std.specs.Prelude.{◌≡◌};
ghost use Rattle.refusal.specs.Table.{number_of};
ghost use Rattle.hash.specs.Update.{update as updated};

use hash::Hash;
use refusal::Refusal;

// Folds a piece into a lent hash state. `mac_in_place` has the same of a code state: one trait over both would need a law over a definition
// that it does not know, where each contract here cites its own state's.
pub fn update(h: &mut Hash, piece: &[u8]) -> Result<(), Refusal>
    ensures { (number_of result ≡ (updated h.old piece.now).number)
        × (h.new ≡ (updated h.old piece.now).state) }
{
    *h = h.update(piece)?;
    Ok(())
}

// What a card driver keeps: one hash state.
#[derive(Clone, Copy)]
pub struct Card {
    pub state: Hash,
}

impl Card {
    // Folds a piece into the card's state.
    pub fn feed(&mut self, piece: &[u8]) -> Result<(), Refusal>
        ensures { (number_of result ≡ (updated self.old.state piece.now).number)
            × (self.new ≡ record { state = (updated self.old.state piece.now).state }) }
    {
        update(&mut self.state, piece)
    }
}
