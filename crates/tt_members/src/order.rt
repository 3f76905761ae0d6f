//! Members in order of arrival: found by their connections, and changed in place.
ghost use Rattle.std.specs.Prelude.{◌≡◌, ◌<◌, ◌≤◌, ◌-◌, ◌==◌, vec_len, vec_capacity, Some, None, IfSome, IfNone};
ghost use Rattle.std.specs.Prelude.{length, map, find, slice_index_or, cond};
ghost use Rattle.tt_log.specs.Table.{is_on};
ghost use Rattle.tt_log.specs.Frames.{fresh_token};
ghost use Rattle.tt_log.specs.Tick.{drawn};
ghost use Rattle.tt_world.specs.Random.{next_random};
ghost use Rattle.tt_log.specs.Member.{Member, is_playing};
ghost use Rattle.tt_members.specs.declared.edit.Edit.TheVariants.{Leave};
ghost use Rattle.tt_members.specs.Rules.{Rise, HasRoom};
ghost use Rattle.tt_members.specs.Done.{offered, renamed};
ghost use Rattle.tt_members.specs.Edits.{on, turned, permitted, permitted_by, words_by, members_by, members_after, queue_by, queue_after};

use crate::edit::{Edit, Offer};
use crate::marks::Marks;
use crate::member::Member;
use crate::queue::Queue;
use tt_frame::Text;
use tt_rules::Status;
use tt_world::Random;

/// The place of the member on a connection. It looks at few of them, since connections rise.
pub fn place_of(members: &[Member], conn: u32) -> Option<usize>
    requires { Rise members.now }
    ensures within { IfSome result (λ at. at < length members.now) }
    ensures found { IfSome result (λ at. (d : Member) → find (is_on conn) members.now ≡ Some (slice_index_or members.now at d)) }
    ensures none { IfNone result (find (is_on conn) members.now ≡ None) }
{
    let mut low = 0;
    let mut high = members.len();
    while low < high {
        let middle = low + (high - low) / 2;
        let m = &members[middle];
        let one = m.conn();
        if one == conn {
            return Some(middle);
        }
        if one < conn {
            low = middle + 1;
        } else {
            high = middle;
        }
    }
    None
}

/// What a change makes of the member on its connection.
fn turn(edit: Edit, m: &mut Member)
    ensures turned { m.new ≡ turned edit m.old }
{
    let old = m.marks();
    match edit {
        Edit::Mark { marks, .. } => m.mark(marks),
        Edit::Begin { frame, .. } => m.mark(Marks {
            status: Status::Map,
            since: frame,
            map_frame: frame,
            pieces: 0,
            ..old
        }),
        Edit::Move { company, .. } => m.mark(Marks { company, ..old }),
        Edit::Load { pieces, status, .. } => m.mark(Marks {
            pieces,
            status,
            ..old
        }),
        _ => {}
    }
}

/// A change of the member on a connection alone.
fn change(members: &mut Vec<Member>, conn: u32, edit: Edit)
    requires { Rise members.old.items }
    ensures members { members.new.items ≡ on conn (turned edit) members.old.items }
    ensures room { vec_capacity members.old - vec_len members.old ≤ vec_capacity members.new - vec_len members.new }
{
    if let Some(at) = place_of(members, conn) {
        turn(edit, &mut members[at]);
    }
}

/// A connection is a member no longer.
fn leave(members: &mut Vec<Member>, conn: u32)
    requires { Rise members.old.items }
    ensures members { members.new.items ≡ members_by (Leave conn) members.old.items }
    ensures room { vec_capacity members.old - vec_len members.old ≤ vec_capacity members.new - vec_len members.new }
{
    if let Some(at) = place_of(members, conn) {
        members.remove(at);
    }
}

/// Each member's two oldest commands wait no longer.
fn draw_all(members: &mut Vec<Member>)
    ensures members { members.new.items ≡ map drawn members.old.items }
    ensures room { vec_capacity members.old - vec_len members.old ≤ vec_capacity members.new - vec_len members.new }
{
    for m in members.iter_mut() {
        m.draw_two();
    }
}

/// One that plays is told how far it may run, with a fresh token where none is open: the random words behind it.
fn permit(m: &mut Member, frame: u32, top: u32, words: (u32, u32)) -> (u32, u32)
    ensures member { m.new ≡ cond (is_playing m.old) (permitted_by (m.old.token == 0) frame top words m.old) m.old }
    ensures words { result ≡ words_by m.old words }
{
    if !m.is_playing() {
        return words;
    }
    let marks = Marks {
        told: top,
        ..m.marks()
    };
    if marks.token != 0 {
        m.mark(marks);
        return words;
    }
    let mut random = Random::of(words.0, words.1);
    let token = fresh_token(&mut random);
    m.mark(Marks {
        token,
        token_frame: frame,
        ..marks
    });
    random.words()
}

/// A fresh token, by the next draw.
pub fn fresh_token(random: &mut Random) -> u8
    ensures words { random.new ≡ next_random random.old }
    ensures token { result ≡ fresh_token random.old }
{
    1 + random.next_below(255) as u8
}

/// Those that play are told how far they may run, in order of arrival.
fn permit_all(members: &mut Vec<Member>, frame: u32, top: u32, words: (u32, u32))
    ensures members { members.new.items ≡ permitted frame top words members.old.items }
    ensures room { vec_capacity members.old - vec_len members.old ≤ vec_capacity members.new - vec_len members.new }
{
    let mut words = words;
    for m in members.iter_mut() {
        words = permit(m, frame, top, words);
    }
}

/// Makes one change.
pub fn apply(edit: Edit, members: &mut Vec<Member>, queue: &mut Queue)
    requires { Rise members.old.items }
    ensures members { members.new.items ≡ members_by edit members.old.items }
    ensures rise { Rise members.new.items }
    ensures queue { queue.new.conns ≡ queue_by edit queue.old.conns }
    ensures room { vec_capacity members.old - vec_len members.old ≤ vec_capacity members.new - vec_len members.new }
    ensures queue_room { queue.old.room ≤ queue.new.room }
{
    match edit {
        Edit::Mark { conn, .. } => change(members, conn, edit),
        Edit::Begin { conn, .. } => change(members, conn, edit),
        Edit::Draw => draw_all(members),
        Edit::Permit { frame, top, words } => permit_all(members, frame, top, words),
        Edit::Move { conn, .. } => change(members, conn, edit),
        Edit::Load { conn, .. } => change(members, conn, edit),
        Edit::Leave { conn } => leave(members, conn),
        Edit::Unask { conn } => {
            let _ = queue.leave(conn);
        }
    }
}

/// Makes changes, in order. It takes no memory.
pub fn apply_all(edits: &[Edit], members: &mut Vec<Member>, queue: &mut Queue)
    requires { Rise members.old.items }
    ensures members { members.new.items ≡ members_after edits.now members.old.items }
    ensures queue { queue.new.conns ≡ queue_after edits.now queue.old.conns }
    ensures room { vec_capacity members.old - vec_len members.old ≤ vec_capacity members.new - vec_len members.new }
    ensures queue_room { queue.old.room ≤ queue.new.room }
{
    for edit in edits.iter() {
        apply(*edit, members, queue);
    }
}

/// A member has another name from now on, if there is one.
pub fn rename(members: &mut Vec<Member>, name: Option<(u32, Text<24>)>)
    requires { Rise members.old.items }
    ensures members { members.new.items ≡ renamed name members.old.items }
    ensures room { vec_capacity members.old - vec_len members.old ≤ vec_capacity members.new - vec_len members.new }
{
    let Some((conn, name)) = name else {
        return;
    };
    if let Some(at) = place_of(members, conn) {
        let m = &mut members[at];
        m.rename(name);
    }
}

/// A command of a member waits from now on, if there is one.
pub fn offer(members: &mut Vec<Member>, offer: Option<Offer>)
    requires rise { Rise members.old.items }
    requires room { HasRoom offer members.old.items }
    ensures members { members.new.items ≡ offered offer members.old.items }
    ensures room { vec_capacity members.old - vec_len members.old ≤ vec_capacity members.new - vec_len members.new }
{
    let Some(offer) = offer else {
        return;
    };
    if let Some(at) = place_of(members, offer.conn) {
        let m = &mut members[at];
        let _ = m.offer(offer.company, offer.command);
    }
}
