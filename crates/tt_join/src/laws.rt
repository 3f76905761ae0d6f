//! What a plan is to a whole game: functions with empty bodies, whose clauses are the laws.
ghost use Rattle.std.specs.Prelude.{◌≡◌, ◌+◌, ℕ, List, Some};
ghost use Rattle.tt_edge.specs.declared.event.Event.TheVariants.{Open as Opens, Packet, Broken, Shut as Shuts, Tick as Ticks};
ghost use Rattle.tt_edge.specs.declared.event.Door.TheVariants.{Main};
ghost use Rattle.tt_edge.specs.declared.event.Peer.{Peer};
ghost use Rattle.tt_log.specs.Deed.{◌▹◌};
ghost use Rattle.tt_log.specs.Desk.{admins_limited};
ghost use Rattle.tt_log.specs.Events.{by_event, read_msg};
ghost use Rattle.tt_log.specs.Member.{Member};
ghost use Rattle.tt_log.specs.Origin.{Origin};
ghost use Rattle.tt_log.specs.Polls.{admins_told};
ghost use Rattle.tt_log.specs.Table.{Table, member_of, world_of};
ghost use Rattle.tt_members.specs.Crew.{crew_of};
ghost use Rattle.tt_members.specs.Planned.{Planned};
ghost use Rattle.tt_join.specs.declared.input.Input.{Input};
ghost use Rattle.tt_join.specs.declared.input.Input.TheVariants.{Open, Bad, Shut, Tick};
ghost use Rattle.tt_join.specs.declared.input.Now.{Now};
ghost use Rattle.tt_join.specs.Inputs.{by_input, Plans};
ghost use Rattle.tt_join.specs.Ties.{outside, outside_by, packet_input, IsTied, IsTimeOf};

/// A plan for the members of a game is what the rule is to the whole game. It holds of every game and of every table of it.
pub fn a_plan_is_its_rule()
    ensures tied { (o : Origin) (t : Table) (now : Now) (input : Input) (p : Planned) → IsTimeOf o t now input
        → Plans o.setup (crew_of o t) now input p → IsTied o t input p }
{}

/// No rule of members touches more of a game than the members, but that openings are counted and that a tick runs a frame.
pub fn all_else_stays()
    ensures outside { (o : Origin) (t : Table) (input : Input) → outside (by_input input o t).table ≡ outside_by input o t }
{}

/// What an event does to a game is what it does to the members, where it comes to them: a connection that is opened at the main
/// door, and what comes on a connection on which a member is.
pub fn an_event_is_its_input()
    ensures opening { (o : Origin) (t : Table) (peer : Peer) → by_event o (Opens Main peer) t ≡ by_input (Open (t.openings + 1)) o t }
    ensures packet { (o : Origin) (t : Table) (conn kind : ℕ) (body : List ℕ) (m : Member) → member_of t conn ≡ Some m
        → by_event o (Packet conn kind body) t ≡ by_input (packet_input conn (read_msg kind body)) o t }
    ensures broken { (o : Origin) (t : Table) (conn : ℕ) (m : Member) → member_of t conn ≡ Some m
        → by_event o (Broken conn) t ≡ by_input (Bad conn) o t }
    ensures shut { (o : Origin) (t : Table) (conn : ℕ) (m : Member) → member_of t conn ≡ Some m
        → by_event o (Shuts conn) t ≡ by_input (Shut conn) o t }
{}

/// A tick of a game is a tick of its members, and then what it does to admins: their limits, and what they are told of a day.
pub fn a_tick_ends_with_admins()
    ensures tick { (o : Origin) (t : Table) → by_event o Ticks t
        ≡ by_input Tick o t ▹ admins_limited o ▹ admins_told (world_of o t).day o }
{}
