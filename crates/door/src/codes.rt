// The calls of the code: HMAC over SM3.
ghost use Rattle.std.specs.Prelude.{◌≡◌};
ghost use Rattle.mac.specs.Codes.{start, update, finish, code_of, compare_state, compare_message};

use hash::{Compared, Digest};
use mac::{Code, CodeUpdated};

#[unsafe(no_mangle)]
pub extern "C" fn vs_code_start(key: &[u8]) -> CodeUpdated
    ensures { result ≡ start key.now }
{
    CodeUpdated::started(key)
}

#[unsafe(no_mangle)]
pub extern "C" fn vs_code_update(state: Code, piece: &[u8]) -> CodeUpdated
    ensures { result ≡ update state piece.now }
{
    CodeUpdated::told(state, state.update(piece))
}

#[unsafe(no_mangle)]
pub extern "C" fn vs_code_finish(state: Code) -> Digest
    ensures { result ≡ finish state }
{
    state.finish().into()
}

#[unsafe(no_mangle)]
pub extern "C" fn vs_code_of(key: &[u8], message: &[u8]) -> Digest
    ensures { result ≡ code_of key.now message.now }
{
    mac::code_of(key, message).into()
}

#[unsafe(no_mangle)]
pub extern "C" fn vs_compare_code(state: Code, expected: &[u8]) -> Compared
    ensures { result ≡ compare_state state expected.now }
{
    state.matches(expected).into()
}

#[unsafe(no_mangle)]
pub extern "C" fn vs_compare_code_of(key: &[u8], message: &[u8], expected: &[u8]) -> Compared
    ensures { result ≡ compare_message key.now message.now expected.now }
{
    mac::matches(key, message, expected).into()
}
