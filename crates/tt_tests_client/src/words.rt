//! Words that a client is told: of frames that it has run, of frames to come, and in whatever order.
use crate::players::joined;
use std::alloc::Global;
use std::test::Fail;
use tt_client::State;

/// That clients may run to frame 300.
const FAR: [u8; 12] = [12, 0, 21, 0, 0, 0, 0, 44, 1, 0, 0, 0];

/// The word of frame 1.
const FIRST: u32 = 0xfe24_68ad;

/// The packet of a word that is told of a frame.
fn told(frame: u32, word: u32) -> [u8; 11] {
    let at = frame.to_le_bytes();
    let low = word.to_le_bytes();
    [
        11, 0, 22, at[0], at[1], at[2], at[3], low[0], low[1], low[2], low[3],
    ]
}

/// How a client stands that has run 300 frames, and then is told a word that is not that of a frame.
fn state_told_late(alloc: Global, frame: u32) -> Result<State, Fail> {
    let mut client = joined(alloc)?;
    client.feed(&FAR)?;
    client.advance(300);
    client.feed(&told(frame, 0))?;
    Ok(client.state())
}

/// How a client stands that is told words of frames to come, and then runs three frames.
fn state_told_early(alloc: Global, words: &[(u32, u32)]) -> Result<State, Fail> {
    let mut client = joined(alloc)?;
    client.feed(&FAR)?;
    for (frame, word) in words {
        client.feed(&told(*frame, *word))?;
    }
    client.advance(3);
    Ok(client.state())
}

#[test]
fn a_word_of_128_frames_back_is_compared(rt: HostRuntime) -> Result<(), Fail> {
    let state = state_told_late(rt.alloc(), 173)?;
    assert!(rt;
        matches!(
            state,
            State::Desync {
                frame: 173,
                theirs: 0,
                ..
            }
        )
    );
    Ok(())
}

#[test]
fn a_word_of_129_frames_back_is_not(rt: HostRuntime) -> Result<(), Fail> {
    assert_eq!(rt; state_told_late(rt.alloc(), 172)?, State::Running);
    Ok(())
}

#[test]
fn the_first_other_word_of_a_frame_is_told(rt: HostRuntime) -> Result<(), Fail> {
    let state = state_told_early(rt.alloc(), &[(1, FIRST), (1, 8), (1, 7), (1, FIRST)])?;
    let off = State::Desync {
        frame: 1,
        mine: FIRST,
        theirs: 8,
    };
    assert_eq!(rt; state, off);
    Ok(())
}

#[test]
fn its_own_word_told_twice_is_in_step(rt: HostRuntime) -> Result<(), Fail> {
    let state = state_told_early(rt.alloc(), &[(1, FIRST), (1, FIRST)])?;
    assert_eq!(rt; state, State::Running);
    Ok(())
}

#[test]
fn words_are_kept_in_any_order_of_frames(rt: HostRuntime) -> Result<(), Fail> {
    let state = state_told_early(rt.alloc(), &[(9, 0), (3, 0), (2, 0), (1, FIRST)])?;
    assert!(rt;
        matches!(
            state,
            State::Desync {
                frame: 2,
                theirs: 0,
                ..
            }
        )
    );
    Ok(())
}
