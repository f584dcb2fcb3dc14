// Document 02, #105. The program `lengthen`: recorded lines with ids of 64 bits from standard input, turned into lines with ids of 128 bits.

#![tactic(auto)]

use frame::Width;

// Kept: a program for each way, as document 02 names two.
fn main(rt: HostRuntime) {
    converter::run(&mut rt.stdin(), &mut rt.stdout(), Width::Long);
}
