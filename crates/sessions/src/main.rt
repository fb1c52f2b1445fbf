// Runs the sessions of the script on its input against the proved controller, one call a line, and compares each answer with the one
// that the script expects of the papers. Sessions 1 to 9 of the paper are proved of the definitions (room chip); here 9 and longer ones run.
#![tactic(auto)]

mod calls; // calls.rt: a line's call, made on the image
mod codes; // codes.rt: the status codes, and in which session each was first read
mod names; // names.rt: numbers, bits and codes written
mod reply; // reply.rt: an entry's result taken apart
mod script; // script.rt: line by line
mod words; // words.rt: a line taken apart

fn main() {
    let mut text = io::large_buffer();
    let n = io::read_full(0, &mut text);
    script::run(&text[..n]);
}
