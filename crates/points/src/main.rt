// Reads a day file on standard input and prints its points, each with the shares of its entries, or why the file is refused.
#![tactic(auto)]

use std::io::Result;
use streams::LARGE_BUFFER;

fn main(rt: HostRuntime) -> Result<()> {
    let mut file = [0u8; LARGE_BUFFER];
    let mut text = [0u8; LARGE_BUFFER];
    let got = streams::read_full(&mut rt.stdin(), &mut file)?;
    let listing = pointlisting::list_points(&file[..got], &mut text);
    streams::print_listing(&mut rt.stdout(), listing, &text)
}
