//! Lists of items of several fields each, at most so many: behind a count, or each behind a mark.
ghost use Rattle.std.specs.Prelude.{◌≡◌, ℕ, ◌+◌, ◌≤◌, ◌<◌, List, [], ◌∷◌, ◌++◌, length, take, OnOk, OnErr, option_map};
ghost use Rattle.std.specs.Cmp.{partial_equiv_from_equiv};
ghost use Rattle.std.specs.Cmp.Lexicographic.{pointwise, lists_equiv, lists_per};
ghost use Rattle.tt_frame.specs.FieldForms.{Named};
ghost use Rattle.tt_frame.specs.ItemForms.{Item, ItemFits, ItemsFit, item_at, items_at, marked_at, marked_item_at};
ghost use Rattle.tt_frame.specs.Reading.{FieldRead, FieldReadOrMemory};
ghost use Rattle.tt_frame.specs.Said.{mark, each_said, item_said, items_said, marks_said, marked_said};
ghost use Rattle.tt_frame.specs.Parts.{all_said_by, PartsFit};
ghost use Rattle.tt_frame.specs.Families.{if_done};

use crate::bad::Bad;
use crate::decoding::up_to;
use crate::fields::Fields;
use crate::memory::OutOfMemory;
use crate::parts::{Part, PartWriter, put_parts, tell};
use crate::ranges::UpTo;
use std::alloc::Global;
use std::marker::Model;

/// An item of a list: it is read and told field by field.
pub trait ListItem: Drop {
    /// Its fields, in order.
    ghost fields: { List Named };

    /// Their values.
    ghost values: { Self → Item fields };

    /// The same of several items.
    ghost listed: { List Self → List (Item fields) };

    /// The next item.
    fn read(f: &mut Fields) -> Result<Self, Bad>
        ensures { FieldRead values result f.new (item_at fields f.old) };

    /// Tells its fields.
    fn tell<W: PartWriter>(&self, to: &mut W) -> Result<(), OutOfMemory>
        ensures told { W.text to.new ≡ if_done result (W.text to.old
            ++ each_said W.word (item_said fields (values self.now))) (W.text to.new) }
        ensures err { OnErr result (take (length (W.text to.old)) (W.text to.new) ≡ W.text to.old) };

    /// It does nothing: its contract says that the values are in their ranges.
    fn fits(&self)
        ensures { ItemFits fields (values self.now) };

    ghost none: { listed [] ≡ [] };

    ghost more: { (xs : List Self) (x : Self) → listed (xs ++ x ∷ []) ≡ listed xs ++ values x ∷ [] };

    ghost as_long: { (xs : List Self) → length (listed xs) ≡ length xs };
}

/// At most `MAX` items.
///
/// Contracts see it as the list of them.
#[derive(Debug, Drop)]
pub struct Items<T: ListItem, const MAX: usize> {
    content: Vec<T>,
}

impl<T: ListItem, const MAX: usize> Model for Items<T, MAX> {
    ghost use Rattle.std.specs.Prelude.{◌≤◌, List, length};
    ghost use Rattle.tt_frame.specs.ItemForms.{ItemsFit};

    ghost Value = { List T };

    ghost view = { λ list. list.content.items };

    ghost invariant = { λ list. (length list.content.items ≤ MAX) × ItemsFit T.fields (T.listed list.content.items) };
}

impl<T: ListItem + PartialEq, const MAX: usize> PartialEq for Items<T, MAX> {
    ghost eq = { pointwise T.eq };

    ghost laws = { lists_per T.laws };

    fn eq(&self, other: &Items<T, MAX>) -> bool {
        self.content.as_slice() == other.content.as_slice()
    }
}

impl<T: ListItem + Eq, const MAX: usize> Eq for Items<T, MAX> {
    ghost laws = { lists_equiv T.Eq.laws };
}

impl<T: ListItem, const MAX: usize> Items<T, MAX> {
    /// No items. It takes no memory yet.
    pub fn new(alloc: Global) -> Items<T, MAX>
        ensures { result ≡ [] }
    {
        Items {
            content: Vec::new(alloc),
        }
    }

    /// One item more, behind the others. Where memory is refused the list is as it was.
    pub fn push(&mut self, item: T) -> Result<(), OutOfMemory>
        requires { length self.old < MAX }
        ensures ok { OnOk result (self.new ≡ self.old ++ item ∷ []) }
        ensures err { OnErr result (self.new ≡ self.old) }
    {
        item.fits();
        match self.content.push(item) {
            Ok(()) => Ok(()),
            Err(_) => Err(OutOfMemory),
        }
    }

    /// The items, in order.
    pub fn as_slice(&self) -> &[T]
        ensures { result.now ≡ self.now }
    {
        self.content.as_slice()
    }

    /// How many there are. The contract says besides that they are few, and that their values are in their ranges.
    pub fn len(&self) -> usize
        ensures same { result ≡ length self.now }
        ensures few { length self.now ≤ MAX }
        ensures fit { ItemsFit T.fields (T.listed self.now) }
    {
        self.content.len()
    }
}

/// The bytes of an array. The contract says besides how many they are, which `fits` of an item may need.
pub fn array_bytes<const N: usize>(bytes: &[u8; N]) -> &[u8]
    ensures same { result.now ≡ bytes.now }
    ensures length { length bytes.now ≡ N }
{
    bytes
}

/// The next `count` items.
pub fn counted<T: ListItem, const MAX: usize>(
    alloc: Global,
    count: u16,
    f: &mut Fields,
) -> Result<Items<T, MAX>, Bad>
    requires { count ≤ MAX }
    ensures { FieldReadOrMemory T.listed result f.new (items_at T.fields count f.old) }
{
    let mut list = Items::new(alloc);
    for _ in 0..count {
        match T::read(f) {
            Ok(item) => {
                if let Err(_) = list.push(item) {
                    return Err(Bad::Memory);
                }
            }
            Err(e) => return Err(e),
        }
    }
    Ok(list)
}

/// The items behind marks, of which there are at most `MAX`, and the mark behind the last.
pub fn marked<T: ListItem, const MAX: usize>(
    alloc: Global,
    f: &mut Fields,
) -> Result<Items<T, MAX>, Bad>
    ensures { FieldReadOrMemory T.listed result f.new (marked_at T.fields MAX f.old) }
{
    let mut list = Items::new(alloc);
    for _ in 0..MAX {
        match marked_item(f) {
            Ok(Some(item)) => {
                if let Err(_) = list.push(item) {
                    return Err(Bad::Memory);
                }
            }
            Ok(None) => return Ok(list),
            Err(e) => return Err(e),
        }
    }
    let last: Result<UpTo<0>, Bad> = up_to(f);
    match last {
        Ok(_) => Ok(list),
        Err(e) => Err(e),
    }
}

/// What stands at a mark: an item, or nothing more.
fn marked_item<T: ListItem>(f: &mut Fields) -> Result<Option<T>, Bad>
    ensures { FieldRead (option_map T.values) result f.new (marked_item_at T.fields f.old) }
{
    let mark: UpTo<1> = up_to(f)?;
    if mark.get() == 0 {
        return Ok(None);
    }
    let item = T::read(f)?;
    Ok(Some(item))
}

/// Tells the items, one behind the other.
fn put_items<W: PartWriter, T: ListItem>(to: &mut W, list: &[T]) -> Result<(), OutOfMemory>
    ensures ok { OnOk result (W.text to.new ≡ W.text to.old ++ each_said W.word (items_said T.fields (T.listed list.now))) }
    ensures err { OnErr result (take (length (W.text to.old)) (W.text to.new) ≡ W.text to.old) }
{
    for item in list {
        if let Err(e) = item.tell(to) {
            return Err(e);
        }
    }
    Ok(())
}

/// Tells an item behind its mark.
fn put_marked_item<W: PartWriter, T: ListItem>(to: &mut W, item: &T) -> Result<(), OutOfMemory>
    ensures ok { OnOk result (W.text to.new ≡ W.text to.old ++ each_said W.word (mark 1 ∷ item_said T.fields (T.values item.now))) }
    ensures err { OnErr result (take (length (W.text to.old)) (W.text to.new) ≡ W.text to.old) }
{
    put_parts(to, &[Part::Mark(true)])?;
    item.tell(to)
}

/// Tells the items, each behind a mark.
fn put_marked<W: PartWriter, T: ListItem>(to: &mut W, list: &[T]) -> Result<(), OutOfMemory>
    ensures ok { OnOk result (W.text to.new ≡ W.text to.old ++ each_said W.word (marks_said T.fields (T.listed list.now))) }
    ensures err { OnErr result (take (length (W.text to.old)) (W.text to.new) ≡ W.text to.old) }
{
    for item in list {
        if let Err(e) = put_marked_item(to, item) {
            return Err(e);
        }
    }
    Ok(())
}

/// Tells these parts, the last of them a count, and then the items.
fn put_counted_list<W: PartWriter, T: ListItem>(
    to: &mut W,
    parts: &[Part],
    list: &[T],
) -> Result<(), OutOfMemory>
    requires { PartsFit parts.now }
    ensures ok { OnOk result (W.text to.new ≡ W.text to.old ++ each_said W.word (all_said_by parts.now
        ++ (items_said T.fields (T.listed list.now) ++ []))) }
    ensures err { OnErr result (take (length (W.text to.old)) (W.text to.new) ≡ W.text to.old) }
{
    put_parts(to, parts)?;
    put_items(to, list)
}

/// Tells these parts, then the items behind marks, and a last mark.
fn put_marked_list<W: PartWriter, T: ListItem>(
    to: &mut W,
    parts: &[Part],
    list: &[T],
) -> Result<(), OutOfMemory>
    requires { PartsFit parts.now }
    ensures ok { OnOk result (W.text to.new ≡ W.text to.old ++ each_said W.word (all_said_by parts.now
        ++ (marked_said T.fields (T.listed list.now) ++ []))) }
    ensures err { OnErr result (take (length (W.text to.old)) (W.text to.new) ≡ W.text to.old) }
{
    put_parts(to, parts)?;
    put_marked(to, list)?;
    put_parts(to, &[Part::Mark(false)])
}

/// Tells these parts, the last of them a count, and then the items, with nothing behind them.
pub fn tell_counted<W: PartWriter, T: ListItem, const MAX: usize>(
    to: &mut W,
    parts: &[Part],
    list: &Items<T, MAX>,
) -> Result<(), OutOfMemory>
    requires { PartsFit parts.now }
    ensures told { W.text to.new ≡ if_done result (W.text to.old ++ each_said W.word (all_said_by parts.now
        ++ (items_said T.fields (T.listed list.now) ++ []))) (W.text to.new) }
    ensures err { OnErr result (take (length (W.text to.old)) (W.text to.new) ≡ W.text to.old) }
{
    put_counted_list(to, parts, list.as_slice())
}

/// Tells these parts, and then the items behind marks, with nothing behind the last mark.
pub fn tell_marked<W: PartWriter, T: ListItem, const MAX: usize>(
    to: &mut W,
    parts: &[Part],
    list: &Items<T, MAX>,
) -> Result<(), OutOfMemory>
    requires { PartsFit parts.now }
    ensures told { W.text to.new ≡ if_done result (W.text to.old ++ each_said W.word (all_said_by parts.now
        ++ (marked_said T.fields (T.listed list.now) ++ []))) (W.text to.new) }
    ensures err { OnErr result (take (length (W.text to.old)) (W.text to.new) ≡ W.text to.old) }
{
    put_marked_list(to, parts, list.as_slice())
}
