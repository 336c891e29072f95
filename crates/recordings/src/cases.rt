// The recordings held here.
use crate::cuts::case;
use std::io::Stdout;

// No good first line.
pub(crate) fn first_lines(output: Stdout) {
    case(output, b"no line", b"");
    case(output, b"a byte first", b"B\t5\n");
    case(output, b"a format not in the table", b"F\tZ\n");
    case(output, b"a format in lower case", b"F\ts\n");
    case(output, b"a blank line first", b"\nF\tS\n");
    case(output, b"CR before the first newline", b"F\tV\r\n");
    case(
        output,
        b"garbage without a newline",
        b"\xff\x00 garbage that is longer than the longest of the pieces: sixty-four bytes",
    );
}

// A later line that is bad.
pub(crate) fn later_lines(output: Stdout) {
    case(output, b"F again", b"F\tV\nQ\nF\tV\n");
    case(output, b"the letter Z", b"F\tV\nZ\n");
    case(output, b"the letter b", b"F\tV\nb\t5\n");
    case(output, b"CR before a newline", b"F\tV\nQ\r\n");
    case(output, b"a blank line", b"F\tV\n\nQ\n");
    case(
        output,
        b"a bad line behind a dropped byte",
        b"F\tV\nB\t5\nZ\nB\t5\n",
    );
    case(
        output,
        b"later garbage without a newline",
        b"F\tV\n\xff\x00 garbage that is longer than the longest of the pieces: sixty-four bytes",
    );
}

// A decimal, good or bad.
pub(crate) fn decimals(output: Stdout) {
    case(output, b"B 0 and B 255", b"F\tT\nQ\nB\t0\nB\t255\nB\t1\n");
    case(output, b"B 256", b"F\tT\nB\t256\n");
    case(output, b"B 1000", b"F\tT\nB\t1000\n");
    case(output, b"B 00", b"F\tT\nB\t00\n");
    case(output, b"B 05", b"F\tT\nB\t05\n");
    case(output, b"B and a tab", b"F\tT\nB\t\n");
    case(output, b"B alone", b"F\tT\nB\n");
}

// Words, good or dropped.
pub(crate) fn words(output: Stdout) {
    case(
        output,
        b"the paper's example",
        b"F\tV\nB\t5\nB\t108\nB\t5\nB\t61\nQ\n",
    );
    case(
        output,
        b"the same with bit 7 set in each byte",
        b"F\tV\nB\t133\nB\t236\nB\t133\nB\t189\nQ\n",
    );
    case(output, b"X and Q", b"F\tS\nB\t148\nX\nB\t148\nB\t5\nQ\n");
    case(
        output,
        b"a second mark inside a report",
        b"F\tS\nB\t148\nB\t5\nB\t152\nB\t0\nB\t0\n",
    );
}

// Both pairs of U summed.
pub(crate) fn pairs(output: Stdout) {
    case(
        output,
        b"U: 5, -3 and -123, 0",
        b"F\tU\nQ\nB\t133\nB\t5\nB\t253\nB\t133\nB\t0\n",
    );
    case(
        output,
        b"U: -128, 127 twice",
        b"F\tU\nQ\nB\t128\nB\t128\nB\t127\nB\t128\nB\t127\n",
    );
    case(
        output,
        b"U: 127, -128 twice",
        b"F\tU\nQ\nB\t135\nB\t127\nB\t128\nB\t127\nB\t128\n",
    );
}

// The end of the input.
pub(crate) fn ends(output: Stdout) {
    case(output, b"two bytes kept", b"F\tS\nB\t148\nB\t5\n");
    case(
        output,
        b"four bytes kept",
        b"F\tU\nQ\nB\t133\nB\t5\nB\t253\nB\t133\n",
    );
    case(
        output,
        b"a report's last line without its newline",
        b"F\tV\nB\t108\nB\t5\nB\t61",
    );
    case(output, b"F V without its newline", b"F\tV");
    case(output, b"a bad line without its newline", b"F\tV\nB\t256");
}
