//! The list of signs: where a new one goes, and where one stands.
ghost use Rattle.std.specs.Prelude.{◌≡◌, ◌<◌, ◌≤◌, true, [], ◌∷◌, length};
ghost use Rattle.std.specs.List.{list_any, position, position_or_len};
ghost use Rattle.tt_world.specs.Commands.{is_sign_of, with_text};
ghost use Rattle.tt_world.specs.Gap.{gap_from};

use crate::refusals;
use crate::sign::Sign;
use tt_frame::Name;

/// The first place whose sign has another id than the place's number, or the end. Where ids rise it is the least unused
/// id, and the place of a sign with it.
pub(crate) fn first_gap(signs: &[Sign]) -> usize
    ensures gap { result ≡ gap_from 0 signs.now }
    ensures within { result ≤ length signs.now }
{
    for (i, sign) in signs.iter().enumerate() {
        if usize::from(sign.id) != i {
            return i;
        }
    }
    signs.len()
}

/// The place of the sign with this id and this owner, if it is there.
fn find(id: u32, owner: u8, signs: &[Sign]) -> Option<usize>
    ensures { result ≡ position (is_sign_of id owner) signs.now }
{
    signs
        .iter()
        .position(|sign| refusals::is_sign_of(id, owner, sign))
}

/// The place of the sign with this id and this owner, which is there.
pub(crate) fn place_of(id: u32, owner: u8, signs: &[Sign]) -> usize
    requires { list_any (is_sign_of id owner) signs.now ≡ true }
    ensures place { result ≡ position_or_len (is_sign_of id owner) signs.now }
    ensures within { result < length signs.now }
{
    match find(id, owner, signs) {
        Some(place) => place,
        None => unreachable!(),
    }
}

/// The sign with this id and this owner says the text.
pub(crate) fn change(id: u32, owner: u8, text: &Name, signs: &mut [Sign])
    ensures { signs.new ≡ with_text id owner text.now signs.old }
{
    for sign in signs.iter_mut() {
        change_one(id, owner, text, sign);
    }
}

/// A sign says the text, if it has this id and this owner.
fn change_one(id: u32, owner: u8, text: &Name, sign: &mut Sign)
    ensures { sign.new ∷ [] ≡ with_text id owner text.now (sign.old ∷ []) }
{
    if refusals::is_sign_of(id, owner, sign) {
        sign.text = text.copy();
    }
}
