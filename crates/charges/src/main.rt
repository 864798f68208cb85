// Reads a day file on standard input and prints the overrun charges expected at a rate, or why the file or the rate is refused.
#![tactic(auto)]

use std::env::Env;
use std::io::{self, Read, Write};
use streams::LARGE_BUFFER;
use units::{MOST_RATE, Rate, Refusal};

fn main(rt: HostRuntime) -> io::Result<()> {
    match rate_asked(&rt) {
        Err(refusal) => streams::print_refusal(&mut rt.stdout(), refusal),
        Ok(rate) => print_charges(&mut rt.stdin(), &mut rt.stdout(), Rate(rate)),
    }
}

// The one argument, or Schedule 2's rate without one.
fn rate_asked<E: Env>(env: &E) -> Result<u32, Refusal> {
    if !streams::has_arg(env, 1) {
        return Ok(tariff::OVERRUN_RATE.0);
    }
    if streams::has_arg(env, 2) {
        return Err(Refusal::plain(3));
    }
    let mut word = [0u8; LARGE_BUFFER];
    let length = streams::arg(env, 1, &mut word);
    decimals::decimal_of(&word[..length], MOST_RATE.0)
}

fn print_charges<R: Read, W: Write>(input: &mut R, out: &mut W, rate: Rate) -> io::Result<()> {
    let mut file = [0u8; LARGE_BUFFER];
    let mut text = [0u8; LARGE_BUFFER];
    let got = streams::read_full(input, &mut file)?;
    let listing = chargelisting::list_charges(&file[..got], rate, &mut text);
    streams::print_listing(out, listing, &text)
}
