//! The game that is served: from its setup, or from a saved map.
ghost use Rattle.std.specs.Prelude.{◌≡◌, ◌<◌, ◌≤◌, ◌+◌, [], IfOk, IfErr, IfSome, Err, length};
ghost use Rattle.tt_edge.specs.Count.{Rose};
ghost use Rattle.tt_edge.specs.Source.{ConsumesCount};
ghost use Rattle.tt_workers.specs.Running.{OfBoth};
ghost use Rattle.tt_world.specs.Setup.{Fits};
ghost use Rattle.tt_world.specs.World.{start};
ghost use Rattle.tt_map.specs.Maps.{IsMap};
ghost use Rattle.tt_log.specs.Saved.{IsSaved, most_saved};
ghost use Rattle.tt_server.specs.Saved.{IsNoSaved, IsSavedWorld, OfSaved, StartsFrom};

use std::alloc::Global;
use thiserror::Error;
use tt_edge::{ReadAllError, Source, read_all};
use tt_hub::Hub;
use tt_map::{MapBad, decode_map};
use tt_world::{Setup, World};

/// The most bytes that a saved map has.
const MOST_SAVED: u32 = 65_536;

/// The last day on which a game may start.
const LAST_DAY: u32 = 900_000_000;

/// Why no game was made.
#[derive(Clone, Copy, Debug, PartialEq, Eq, Error)]
pub enum NoGame {
    /// The saved bytes are no map of a day on which a game may start.
    #[error("the bytes are no map that a game may start from")]
    BadMap,
    /// They could not be read.
    #[error("the map could not be read")]
    Fault,
    /// They are more than a map has.
    #[error("there are too many bytes for a map")]
    TooLong,
    /// Memory ran out.
    #[error("memory ran out")]
    Memory,
}

/// The world of a saved map.
fn world_in(alloc: Global, bytes: &[u8]) -> Result<World, NoGame>
    requires few { length bytes.now ≤ most_saved }
    ensures world { IfOk result (IsSavedWorld bytes.now) }
    ensures bad { result ≡ Err NoGame.BadMap → IsNoSaved bytes.now }
    ensures fault { result ≡ Err NoGame.Fault → ⊥ }
    ensures long { result ≡ Err NoGame.TooLong → ⊥ }
{
    match decode_map(alloc, bytes) {
        Ok(world) => {
            if world.day() > LAST_DAY {
                return Err(NoGame::BadMap);
            }
            Ok(world)
        }
        Err(MapBad::Memory) => Err(NoGame::Memory),
        Err(MapBad::Tag(_)) => Err(NoGame::BadMap),
        Err(MapBad::Version(_)) => Err(NoGame::BadMap),
        Err(MapBad::Chunk { .. }) => Err(NoGame::BadMap),
    }
}

/// The world of the map that a source gives, which is read to its end.
fn world_from<S: Source>(alloc: Global, source: &mut S) -> Result<World, NoGame>
    ensures world { IfOk result (λ world. IfSome (S.left source.old) (λ bytes. IsSavedWorld bytes world)) }
    ensures day { IfOk result (λ world. world.day ≤ 900000000) }
    ensures bad { result ≡ Err NoGame.BadMap → IfSome (S.left source.old) IsNoSaved }
    ensures fault { result ≡ Err NoGame.Fault → Rose (S.faults source.old) (S.faults source.new) }
    ensures long { result ≡ Err NoGame.TooLong → ConsumesCount (most_saved + 1) (S.left source.old) (S.left source.new)
        × IfSome (S.left source.old) (λ bytes. most_saved < length bytes) }
{
    match read_all(alloc, source, MOST_SAVED) {
        Ok(bytes) => world_in(alloc, &bytes),
        Err(ReadAllError::TooLong) => Err(NoGame::TooLong),
        Err(ReadAllError::Failed) => Err(NoGame::Fault),
        Err(ReadAllError::Memory) => Err(NoGame::Memory),
    }
}

/// A game from a saved world.
fn game_from(alloc: Global, setup: &Setup, world: World) -> Result<Hub, NoGame>
    requires setup { Fits setup.now }
    requires day { world.day ≤ 900000000 }
    ensures setup { IfOk result (λ hub. hub.setup ≡ setup.now) }
    ensures start { IfOk result (λ hub. hub.start ≡ world) }
    ensures events { IfOk result (λ hub. hub.events ≡ []) }
    ensures err { IfErr result (λ bad. bad ≡ NoGame.Memory) }
{
    match Hub::from_world(alloc, setup, world) {
        Ok(hub) => Ok(hub),
        Err(_) => Err(NoGame::Memory),
    }
}

/// A game from the setup's own world.
fn new_game(alloc: Global, setup: &Setup) -> Result<Hub, NoGame>
    requires setup { Fits setup.now }
    ensures setup { IfOk result (λ hub. hub.setup ≡ setup.now) }
    ensures start { IfOk result (λ hub. hub.start ≡ start setup.now) }
    ensures events { IfOk result (λ hub. hub.events ≡ []) }
    ensures err { IfErr result (λ bad. bad ≡ NoGame.Memory) }
{
    match Hub::new(alloc, setup) {
        Ok(hub) => Ok(hub),
        Err(_) => Err(NoGame::Memory),
    }
}

/// The game that is served: from the saved map where there is one, else from the setup's own world.
pub fn game_of<S: Source>(
    alloc: Global,
    setup: &Setup,
    saved: &mut Option<S>,
) -> Result<Hub, NoGame>
    requires setup { Fits setup.now }
    ensures setup { IfOk result (λ hub. hub.setup ≡ setup.now) }
    ensures start { IfOk result (λ hub. StartsFrom S.left saved.old setup.now hub.start) }
    ensures events { IfOk result (λ hub. hub.events ≡ []) }
    ensures bad { result ≡ Err NoGame.BadMap → OfSaved saved.old (λ source. IfSome (S.left source) IsNoSaved) }
    ensures fault { result ≡ Err NoGame.Fault → OfBoth saved.old saved.new (λ source source'. Rose (S.faults source) (S.faults source')) }
    ensures long { result ≡ Err NoGame.TooLong → OfBoth saved.old saved.new (λ source source'.
        ConsumesCount (most_saved + 1) (S.left source) (S.left source') × IfSome (S.left source) (λ bytes. most_saved < length bytes)) }
{
    match saved {
        None => new_game(alloc, setup),
        Some(source) => match world_from(alloc, source) {
            Ok(world) => game_from(alloc, setup, world),
            Err(bad) => Err(bad),
        },
    }
}
