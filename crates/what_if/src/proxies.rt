//! The memory of the proxy beside each instance.
ghost use Rattle.std.specs.Prelude.{◌≡◌, fold, max};
ghost use Rattle.what_if.specs.Sites.{proxy_of, with_proxy};

use dump_reader::Dump;

/// The memory in MB that the proxy beside an instance takes: the most that a cell tells.
pub fn proxy_of(dump: &Dump) -> u32
    ensures { result ≡ proxy_of dump.now }
{
    let states = dump.states.items();
    let mut most: u32 = 0;
    for state in states {
        most = most.max(state.proxy_memory);
    }
    most
}

/// What an instance asks for in MB with its proxy, up to the last number of 32 bits.
pub fn with_proxy(proxy: u32, memory: u32) -> u32
    ensures { result ≡ with_proxy proxy memory }
{
    memory.saturating_add(proxy)
}
