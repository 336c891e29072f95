// Work by the letter of a format.

// What an expression gives for a letter. Each letter of the table stands in it as a constant, so that the compiler makes code of its own for it. A function
// that takes the work as a closure was tried: the closure is compiled once for all letters, and a clean word of S cost 27 instructions for 11.
macro_rules! by_letter {
    ($of:expr, $letter:ident => $work:expr) => {
        match $of {
            wire::FORMAT_S => { let $letter = wire::FORMAT_S; $work }
            wire::FORMAT_V => { let $letter = wire::FORMAT_V; $work }
            wire::FORMAT_A => { let $letter = wire::FORMAT_A; $work }
            wire::FORMAT_B => { let $letter = wire::FORMAT_B; $work }
            wire::FORMAT_U => { let $letter = wire::FORMAT_U; $work }
            wire::FORMAT_T => { let $letter = wire::FORMAT_T; $work }
            wire::FORMAT_W => { let $letter = wire::FORMAT_W; $work }
            $letter => $work,
        }
    };
}

pub(crate) use by_letter;
