//! Each call once, with ample memory.
use crate::*;
use std::test::*;

#[test]
fn lines_and_words_are_cut(rt: HostRuntime) -> Result<(), Fail> {
    let (line, rest) = first_line(b"tick 2\nopen");
    assert_eq!(rt; line, b"tick 2".as_slice());
    assert_eq!(rt; first_line(rest).0, b"open".as_slice());
    let parts = first_word(line);
    assert!(rt;
        parts.is_some_and(|(word, number)| word == b"tick".as_slice()
            && number_of(number) == Some(2))
    );
    assert_eq!(rt; number_of(b"02"), None);
    assert!(rt; behind(line, b"tack").is_none());
    Ok(())
}

#[test]
fn texts_are_made(rt: HostRuntime) -> Result<(), Fail> {
    let alloc = rt.alloc();
    let mut text = Vec::new(alloc);
    put(&mut text, b"a ")?;
    put_number(&mut text, -5i64)?;
    put(&mut text, b" ")?;
    put_bytes(alloc, &mut text, b"")?;
    put(&mut text, b" ")?;
    put_bytes(alloc, &mut text, b"\x0a\xff")?;
    assert_eq!(rt; text.as_slice(), b"a -5 - 0aff".as_slice());
    let piece = piece_of(alloc, b"0aff")?;
    assert!(rt; piece.is_some_and(|piece| piece.as_slice() == b"\x0a\xff".as_slice()));
    assert!(rt; piece_of(alloc, b"0aF0")?.is_none());
    Ok(())
}
