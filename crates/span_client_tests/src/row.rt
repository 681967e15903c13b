//! Rows of worked scripts: what is asked in one line of text, and what is printed of it.
use std::alloc::{AllocError, Global};

/// The text of a row, in which ` / ` stands for a line end.
pub(crate) fn lines(alloc: Global, row: &str) -> Result<String, AllocError> {
    let mut text = String::new(alloc);
    for line in row.split(" / ") {
        writeln!(text, "{line}")?;
    }
    Ok(text)
}

/// Scripts and what they print.
pub(crate) const ROWS: [(&str, &str); 25] = [
    ("stack plain", "== base"),
    (
        "stack plain / new 0 2 p / new 0 3 c in p / drop 0 p / drop 0 c",
        "p / c / ok / ok / == base / new p / new c / close c / close p",
    ),
    (
        "stack plain / new 0 2 g / new 0 2 p in g / new 0 2 c in p / drop 0 g / drop 0 p / drop 0 c",
        "g / p / c / ok / ok / ok / == base / new g / new p / new c / close c / close p / close g",
    ),
    (
        "stack plain / new 0 2 p / new 0 2 q / enter 0 p / enter 0 q / exit 0 p / current 0 / drop 0 p / exit 0 q / drop 0 q",
        "p / q / ok / ok / ok / q / ok / ok / ok / == base / new p / new q / enter p / enter q / exit p / close p / exit q / close q",
    ),
    (
        "stack plain / new 0 2 p / new 0 2 q / enter 0 p / enter 0 q / drop 0 q / current 0 / exit 0 q / current 0",
        "p / q / ok / ok / ok / none / ok / p / == base / new p / new q / enter p / enter q / close q",
    ),
    (
        "stack plain / new 0 2 p / new 0 2 c in p / drop 0 p / drop 0 p / drop 0 c / enter 0 c / exit 0 c / record 0 c / new 0 2 x in ? / drop 0 c",
        "p / c / ok / refused 3 / ok / refused 1 / ok / refused 1 / refused 2 / refused 1 / == base / new p / new c / close c / close p",
    ),
    (
        "stack plain / new 0 2 x in ? / enter 0 x / exit 0 x / record 0 x / drop 0 x / new 0 0 y in x / exit 0 ? / drop 0 y",
        "refused 2 / none / none / none / none / y / ok / ok / == base / new y / close y",
    ),
    (
        " /  / stack plain /  / new 0 1 none / enter 0 none / new 0 4 a1b2c3d4e5f6g7h8 / new 0 3 r root / current 1 / current 0 / record 9 none / drop 1 none / exit 0 none / drop 0 r / drop 2 a1b2c3d4e5f6g7h8",
        "none / ok / a1b2c3d4e5f6g7h8 / r / none / none / ok / ok / ok / ok / ok / == base / new none / enter none / new a1b2c3d4e5f6g7h8 / new r / record none / exit none / close r / close a1b2c3d4e5f6g7h8 / close none",
    ),
    (
        "stack plain / new 0 2 a / new 1 2 b / enter 0 a / enter 1 b / enter 1 a / enter 1 b / current 0 / current 1 / exit 1 b / current 1 / exit 1 a / current 1",
        "a / b / ok / ok / ok / ok / a / a / ok / a / ok / b / == base / new a / new b / enter a / enter b / enter a / enter b / exit b / exit a",
    ),
    (
        "stack plain / new 0 2 p / clone p / drop 0 p / drop 0 p",
        "p / ok / ok / ok / == base / new p / close p",
    ),
    (
        "stack plain / enabled 0 5 / enabled 0 0",
        "true / true / == base",
    ),
    (
        "stack plain / event 0 9 mute / follows 0 ? ? / new 0 2 p / follows 0 p ?",
        "ok / refused 1 / p / ok / == base / event 9 / new p / follows p ?",
    ),
    (
        "stack pair / event 0 8 / event 0 7",
        "ok / ok / == a / event 8 / event 7 / == b / event 7",
    ),
    (
        "stack pair / new 0 3 p / new 0 2 q in p / enter 0 p / enter 0 q / record 0 p / follows 0 q p / exit 0 q / drop 0 q / exit 0 p / drop 0 p",
        "p / q / ok / ok / ok / ok / ok / ok / ok / ok / == a / new p / new q / enter p / enter q / record p / follows q p / exit q / close q / exit p / close p / == b / new q / enter q / exit q / close q",
    ),
    (
        "stack nested / event 0 8 mute / event 0 7 / event 0 7 mute",
        "ok / ok / ok / == base / event 8 / event 7 / event 7 / == deep / event 7",
    ),
    (
        "stack nested / new 0 2 p / new 0 2 q / drop 0 q / follows 0 p q / follows 0 p p / follows 0 q p",
        "p / q / ok / ok / ok / refused 1 / == base / new p / new q / close q / follows p q / follows p p / == deep / new p / new q / close q / follows p p",
    ),
    (
        "stack veto / event 0 7 mute / event 0 6 / event 0 7 / event 0 8 / enabled 0 8 / enabled 0 7",
        "none / ok / ok / none / false / true / == base / event 6 / event 7 / == warn / event 6",
    ),
    (
        "stack veto / new 0 3 p / enter 0 p / new 0 1 q in p / follows 0 q p / follows 0 p q / event 0 6 in p / drop 0 p / drop 0 q",
        "none / none / q / none / none / ok / none / ok / == base / new q / event 6 / close q / == warn / new q / event 6 / close q",
    ),
    ("stack absent / event 0 9", "ok / == base / event 9"),
    (
        "stack pair / event 0 8 / level 0 debug / event 0 8 / level 1 off / event 0 7 / level 2 info",
        "ok / ok / ok / ok / ok / refused 10 / == a / event 8 / event 8 / == b / event 8 / event 7",
    ),
    (
        "stack pair / new 0 3 p / level 0 debug / enter 0 p / new 0 3 q / drop 0 p / drop 0 q",
        "p / ok / ok / q / ok / ok / == a / new p / enter p / new q / close q / close p / == b / new q / close q",
    ),
    (
        "stack nested / level 0 info / event 0 8 / level 1 trace / event 0 8",
        "refused 10 / ok / ok / ok / == base / event 8 / event 8 / == deep / event 8",
    ),
    (
        "stack veto / event 0 7 / level 0 info / event 0 7 / level 1 off / event 0 6",
        "ok / ok / ok / refused 10 / ok / == base / event 7 / event 7 / event 6 / == warn / event 7 / event 6",
    ),
    (
        "stack directives / event 0 9 / targets 0 warn / event 0 7 / event 0 6 / targets 0 script=debug / event 0 8 / event 0 9 / level 0 off / event 0 5 / targets 1 warn / targets 0 off,[s2]=debug / event 0 7 / new 0 2 p / enter 0 p / event 0 8 / event 0 9",
        "ok / ok / ok / ok / ok / ok / ok / ok / ok / refused 10 / ok / ok / p / ok / ok / ok / == base / event 9 / event 7 / event 6 / event 8 / event 9 / event 5 / event 7 / new p / enter p / event 8 / event 9 / == chosen / event 9 / event 6 / event 8 / new p / enter p / event 8",
    ),
    (
        "stack pair / targets 0 warn / targets 1 warn / event 0 8",
        "refused 10 / refused 10 / ok / == a / event 8 / == b",
    ),
];
