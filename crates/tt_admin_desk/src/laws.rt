//! What the desk's answers determine.
ghost use Rattle.std.specs.Prelude.{◌≡◌, ℕ, true, [], Some, if◌then◌else◌};
ghost use Rattle.tt_admin.specs.declared.message.AdminMsg.{AdminMsg};
ghost use Rattle.tt_log.specs.Admin.{Admin};
ghost use Rattle.tt_log.specs.Desk.{admin_hears};
ghost use Rattle.tt_log.specs.Origin.{Origin};
ghost use Rattle.tt_log.specs.Polls.{due_of, everyone, poll_answers};
ghost use Rattle.tt_log.specs.Table.{Table, admin_of, without_admin};
ghost use Rattle.tt_admin_desk.specs.declared.heard.Heard.{Heard};
ghost use Rattle.tt_admin_desk.specs.declared.heard.Heard.TheVariants.{Leave, Ends};
ghost use Rattle.tt_admin_desk.specs.Hearing.{does, hears};
ghost use Rattle.tt_admin_desk.specs.Seats.{committed, stays, told_on};

/// What was heard is all that the rules need: what they do with the message of an admin is what they do with what was heard.
pub fn heard_is_done()
    ensures done { (o : Origin) (a : Admin) (m : AdminMsg) (t : Table) → admin_hears o (Some m) a t ≡ does (hears o a m) a t }
{}

/// What the rules make of the admins is what `commit` makes of them where the admin stays, and `close` where it goes.
pub fn commit_is_the_rules_change()
    ensures stays { (h : Heard) (a : Admin) (t : Table) → stays h ≡ true → (does h a t).table.admins ≡ (committed h a t).admins }
    ensures leaves { (a : Admin) (t : Table) → (does Leave a t).table.admins ≡ (without_admin a.conn t).admins }
    ensures ends { (code : ℕ) (a : Admin) (t : Table) → (does (Ends code) a t).table.admins ≡ (without_admin a.conn t).admins }
{}

/// An admin that has joined is told of a type on a day that begins, of all that there is of it, exactly where it is due.
pub fn due_is_told()
    ensures told { (day kind conn : ℕ) (a : Admin) (t : Table) → admin_of t conn ≡ Some a → a.joined ≡ true
        → due_of day a t kind ≡ (if told_on day kind (admin_of t conn) then poll_answers kind everyone t else []) }
{}
