//! What holds of every client, over all calls. These functions do nothing: their contracts are the laws.
ghost use Rattle.std.specs.Prelude.{◌≡◌, ℕ, List, ◌++◌, false};
ghost use Rattle.tt_frame.specs.Packet.{IsBytes};
ghost use Rattle.tt_frame.specs.Stream.{rest_of};
ghost use Rattle.tt_frame.specs.StreamReading.{reading};
ghost use Rattle.tt_lockstep.specs.Client as lockstep;
ghost use Rattle.tt_lockstep.specs.Runner.{Runner, runner_run};
ghost use Rattle.tt_world.specs.World.{WorldState};
ghost use Rattle.tt_world.specs.declared.command.Entry.{Entry};
ghost use Rattle.tt_log.specs.Origin.{Origin, game_of};
ghost use Rattle.tt_log.specs.Shown.{items_in, shown};
ghost use Rattle.tt_client.specs.Known.{anywhere, known};
ghost use Rattle.tt_client.specs.Player.{is_off};
ghost use Rattle.tt_client.specs.Showing.{IsShown};
ghost use Rattle.tt_client.specs.Cutting.{cut_off, items_on};
ghost use Rattle.tt_client.specs.declared.login.Login.{Login};
ghost use Rattle.tt_client.specs.Calls.{Call, fed, new_items};
ghost use Rattle.tt_client.specs.Held.{held};
ghost use Rattle.tt_edge.specs.declared.event.Event.{Event};
ghost use Rattle.tt_client.specs.InStep.{IsInStep, IsSent};
ghost use Rattle.tt_client.specs.Runs.{as_running, client, client_mark, client_run};

use tt_in_step::{all_in_step_however_cut, fronts_show};

/// A client with one world does what the client from scratch does, call for call.
pub fn same_run()
    ensures same { (login : Login) (calls : List Call) → as_running (client login calls) ≡ client_run login calls }
{}

/// What the calls of a client make of it, one after the other, is what it is from scratch: its frame, its world folded from its
/// map, its state, its number and company, and what it has to say, whatever bytes it was fed, in whatever pieces.
pub fn in_steps()
    ensures same { (login : Login) (calls : List Call) → IsBytes (fed calls)
        → (held login calls).player ≡ as_running (client login calls) }
{}

/// Unless it is out of step, a client has just what its stream shows: its phase, its map, the commands and the words to compare,
/// its number and its company, and, until it has ended, the place of its dialogue.
pub fn has_what_is_shown()
    ensures shown { (login : Login) (calls : List Call) → IsBytes (fed calls) → is_off (client_mark (client login calls).runs) ≡ false
        → IsShown (client login calls) (shown anywhere (fed calls)) }
{}

/// The headline. Whatever packets, ticks and ends reach a server, in whatever order: a client of a connection of a player that was
/// fed a front of the bytes sent to it, in whatever pieces, with any other calls between them, holds the world of the server's
/// journal at its frame, once it has its map; and it joins, plays, or was ended by an end that stands in those bytes. It is never
/// out of step, nor told what is not permitted.
pub fn clients_are_in_step()
    ensures sent { (o : Origin) (events : List Event) (conn : ℕ) (login : Login) (calls : List Call)
        → IsSent o events conn (fed calls) → IsInStep o events (items_in (fed calls)) (held login calls).player }
{
    all_in_step_however_cut();
    fronts_show();
}

/// What a piece adds is known by the unread rest of what was fed before, and by its place.
pub fn cut_on()
    ensures adds { (before piece rest : List ℕ) → IsBytes before → IsBytes (before ++ piece) → IsBytes (rest ++ piece)
        → (reading 32767 before).1 ≡ rest_of rest
        → new_items before piece ≡ items_on (cut_off before) rest piece }
{}

/// A client depends neither on the game's start nor on how far its permitted frame runs ahead.
pub fn any_game()
    ensures same { (o : Origin) (r : Runner WorldState Entry) (calls : List (lockstep.Call WorldState Entry))
        → runner_run (game_of o) r calls ≡ runner_run known r calls }
{}
