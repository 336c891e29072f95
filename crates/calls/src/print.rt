// What is written: a name, and the sum over all that its calls gave back.
use std::io::Stdout;

pub(crate) fn line(output: Stdout, name: &[u8], sum: u64) {
    let _ = output.write_all(name);
    let _ = println!(output; " {sum}");
}
