// Document 02, #105. The program `shorten`: lines with ids of 128 bits from standard input, turned back into lines with ids of 64 bits.

#![tactic(auto)]

use frame::Width;

fn main(rt: HostRuntime) {
    converter::run(&mut rt.stdin(), &mut rt.stdout(), Width::Short);
}
