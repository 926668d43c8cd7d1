// The keyed sheet in place, read into a session that is lent: what a board calls.
#![tactic(auto)]

ghost use Rattle.std.specs.Prelude.{◌≡◌};
ghost use Rattle.sheet.specs.Judging.{verdict_of};
ghost use Rattle.keyed.specs.Keyed.{keyed_of};

use session::Session;
use sheet::Bad;

// Judges the MAC line, and reads what it covers. Of a refused MAC line that is nothing, and reading nothing lists no note.
pub fn read_into(s: &mut Session, key: &[u8], text: &[u8]) -> Result<(), Bad>
    ensures { (verdict_of result ≡ (keyed_of key.now text.now).verdict)
        × (s.new ≡ (keyed_of key.now text.now).session) }
{
    let mac = keyed::mac_number(key, text);
    let judged = session_in_place::read_into(s, keyed::covered(text, refusal::number_of(mac)));
    keyed::judged(mac, judged)
}
