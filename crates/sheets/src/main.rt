// Reads standard input to its end, or to one byte more than the program takes, and writes the output of it.
#![tactic(auto)]

fn main() {
    // One byte more than the program takes.
    let mut input = text::zeros::<4097>();
    let n = io::read_full(0, &mut input);
    // Room for every output.
    let mut out = text::zeros::<495737>();
    let k = program::run(&input[..n], &mut out);
    io::write_all(1, &out[..k]);
}
