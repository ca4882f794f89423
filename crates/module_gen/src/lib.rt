//! The generated module: large valid input for a run, made from two numbers.
#![tactic(auto)]

mod laws;

ghost use Rattle.std.specs.Prelude.{◌≡◌, IfOk};
ghost use Rattle.module_gen.specs.Generated.{generated};

use itoa::Buffer;
pub use laws::generated_is_short;
use std::alloc::{AllocError, Global};

const BEFORE_SEED: &[u8] = b"-module(load).
-export([main/0,work/3]).
main() -> start(self(),8), gather(1,<<>>).
start(_,0) -> ok;
start(P,K) -> spawn(load,work,[P,K,";

const BEFORE_SIZE: &[u8] = b"]), start(P,K-1).
work(P,K,S) -> B = grow(";

const BEHIND_SIZE: &[u8] = b",(S+K) rem 251,<<>>), P ! {K,B}, P ! {K,sum(B,0)}.
grow(0,_,A) -> A;
grow(N,X,A) -> grow(N-1,(X*13+7) rem 251,<<A/binary,X>>).
sum(<<X,R/binary>>,T) -> sum(R,(T*31+X) rem 1000003);
sum(<<>>,T) -> T.
gather(9,A) -> erlang:display(byte_size(A)), erlang:display(sum(A,0));
gather(K,A) ->
    receive {K,B} when is_binary(B) ->
        receive {K,T} when is_integer(T) -> erlang:display({K,byte_size(B),T}) end,
        gather(K+1,<<A/binary,B/binary>>)
    end.
";

/// The text of the generated module `load`: eight workers make `size` bytes each, which follow from `seed` and the worker's
/// number, and send them to the first process, which joins and sums them. It is defined for every size.
///
/// The error says that no memory was left. It takes time linear in the text.
pub fn generate(alloc: Global, seed: u32, size: u32) -> Result<Vec<u8>, AllocError>
    ensures { IfOk result (λ text. text.items ≡ generated seed size) }
{
    let mut buffer = Buffer::new();
    let mut text = Vec::from_slice(alloc, BEFORE_SEED)?;
    text.extend_from_slice(buffer.format(seed).as_bytes())?;
    text.extend_from_slice(BEFORE_SIZE)?;
    text.extend_from_slice(buffer.format(size).as_bytes())?;
    text.extend_from_slice(BEHIND_SIZE)?;
    Ok(text)
}
