// Runs a script from standard input on a blank one-sector part, and prints its records and its answer.
#![tactic(auto)]

// The file descriptors of standard input and standard output.
const STDIN_FILENO: i32 = 0;

const STDOUT_FILENO: i32 = 1;

// Stays: script and text are arrays, since nothing here asks for a heap.
fn main() {
    let mut script = [0u8; listing::LONGEST + 1];
    // Stays: std's streams rest on C's errno and strerror besides its read and write, and nothing new may be trusted.
    let n = io::read_full(STDIN_FILENO, &mut script);
    let mut text = [0u8; listing::ROOM];
    let end = listing::report(&script[..n], &mut text);
    io::write_all(STDOUT_FILENO, &text[..end]);
}
