// Recordings of as many lines as there may be, and of more. All but the last lines are fed in blocks, once.
use crate::cuts::case_behind;
use crate::making::append;
use listing::Lister;
use std::io::Stdout;

// The 999,997 silences between the first line and line 999,999: so many blocks of so many.
const BLOCKS: usize = 757;

const BLOCK: usize = 1321;

// A block of silences.
fn silences(out: &mut [u8]) {
    let mut n = 0;
    for _ in 0..BLOCK {
        n = append(out, n, b"Q\n");
    }
}

// The lister behind a piece.
fn fed(lister: Lister, piece: &[u8]) -> Lister {
    let mut out = [0u8; 40];
    lister.feed(piece, &mut out).next
}

// The lister behind a format and silences up to the last line but one.
fn up_to_last() -> Lister {
    let mut block = [0u8; 2 * BLOCK];
    silences(&mut block);
    let mut lister = fed(Lister::fresh(), b"F\tS\n");
    for _ in 0..BLOCKS {
        lister = fed(lister, &block);
    }
    lister
}

// The last line that there may be, and the one behind it.
pub(crate) fn last_lines(output: Stdout) {
    let _ = output.write_all(b"# 999,998 lines, and then\n");
    let lister = up_to_last();
    case_behind(output, b"line 999,999", lister, b"B\t5\n");
    case_behind(output, b"line 999,999 without its newline", lister, b"B\t5");
    case_behind(output, b"line 999,999 is bad", lister, b"Z\n");
    case_behind(
        output,
        b"line 999,999 is bad, and there is a line 1,000,000",
        lister,
        b"Z\nQ\n",
    );
    case_behind(output, b"line 1,000,000 is good", lister, b"B\t5\nQ\n");
    case_behind(
        output,
        b"line 1,000,000 is good and has no newline",
        lister,
        b"B\t5\nQ",
    );
    case_behind(output, b"line 1,000,000 is blank", lister, b"B\t5\n\n");
    case_behind(output, b"line 1,000,000 is bad", lister, b"B\t5\nZ\n");
}
