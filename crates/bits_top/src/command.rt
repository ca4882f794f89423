// The words of a command line.
ghost use Rattle.std.specs.Prelude.{◌≡◌, ◌≤◌, ◌<◌, ℕ, List, map, string_bytes, MatchOption};
ghost use Rattle.bits_top.specs.Command.{SpellsCheck, SpellsCommand, SpellsCopy, SpellsGen, SpellsGenerated, SpellsLoad, SpellsNumber, SpellsPlain, SpellsRun};
ghost use Rattle.bits_top.specs.declared.command.Command.{Command};
ghost use Rattle.bits_top.specs.declared.command.Generated.{Generated};
ghost use Rattle.bits_top.specs.declared.command.Load.{Load};
ghost use Rattle.bits_top.specs.declared.command.Run.{Run};
ghost use Rattle.bits_top.specs.declared.plain.Plain.{Plain};

use crate::Plain;
use itoa::Buffer;

const MOST_SCHEDULERS: u32 = 64;

pub(crate) const MOST_REDUCTIONS: u32 = 4_000_000;

const LARGEST_SIZE: u32 = 100_000;

// What the words ask for.
#[derive(Clone, Copy, Debug, PartialEq, Eq)]
pub(crate) enum Command {
    Run(Run),
    Load(Load),
    Plain(Plain),
}

// `run MODULE ORDER SCHEDULERS REDUCTIONS`
#[derive(Clone, Copy, Debug, PartialEq, Eq)]
pub(crate) struct Run {
    pub schedulers: u32,
    pub reductions: u32,
}

// `load SEED SIZE SCHEDULERS`
#[derive(Clone, Copy, Debug, PartialEq, Eq)]
pub(crate) struct Load {
    pub input: Generated,
    pub schedulers: u32,
}

// Which generated module: `SEED SIZE`.
#[derive(Clone, Copy, Debug, PartialEq, Eq)]
pub(crate) struct Generated {
    pub seed: u32,
    pub size: u32,
}

// The number that a word spells in the range, if it spells one.
fn number(word: &str, low: u32, high: u32) -> Option<u32>
    ensures { MatchOption result ((n : ℕ) → SpellsNumber word.now low high n → ⊥) (λ n. SpellsNumber word.now low high n) }
{
    let Ok(n) = word.parse::<u32>() else {
        return None;
    };
    let mut buffer = Buffer::new();
    if n < low || high < n || buffer.format(n) != word {
        return None;
    }
    Some(n)
}

// The generated module that the two words name, if they do.
fn generated_of(seed: &str, size: &str) -> Option<Generated>
    ensures { MatchOption result ((input : Generated) → SpellsGenerated seed.now size.now input → ⊥) (λ input. SpellsGenerated seed.now size.now input) }
{
    let Some(seed) = number(seed, 0, u32::MAX) else {
        return None;
    };
    let Some(size) = number(size, 1, LARGEST_SIZE) else {
        return None;
    };
    Some(Generated { seed, size })
}

// The run that the words ask for, if they do.
fn run_of(words: &[String]) -> Option<Run>
    ensures { MatchOption result ((run : Run) → SpellsRun (map string_bytes words.now) run → ⊥) (λ run. SpellsRun (map string_bytes words.now) run) }
{
    let [name, module, order, schedulers, reductions] = words else {
        return None;
    };
    if name.as_str() != "run" || module.is_empty() || order.is_empty() {
        return None;
    }
    let Some(schedulers) = number(schedulers.as_str(), 1, MOST_SCHEDULERS) else {
        return None;
    };
    let Some(reductions) = number(reductions.as_str(), 1, MOST_REDUCTIONS) else {
        return None;
    };
    Some(Run {
        schedulers,
        reductions,
    })
}

// The run of a generated module that the words ask for, if they do.
fn load_of(words: &[String]) -> Option<Load>
    ensures { MatchOption result ((load : Load) → SpellsLoad (map string_bytes words.now) load → ⊥) (λ load. SpellsLoad (map string_bytes words.now) load) }
{
    let [name, seed, size, schedulers] = words else {
        return None;
    };
    if name.as_str() != "load" {
        return None;
    }
    let Some(input) = generated_of(seed.as_str(), size.as_str()) else {
        return None;
    };
    let Some(schedulers) = number(schedulers.as_str(), 1, MOST_SCHEDULERS) else {
        return None;
    };
    Some(Load { input, schedulers })
}

// Whether the words ask for the check of a module.
fn check_of(words: &[String]) -> Option<()>
    ensures { MatchOption result (SpellsCheck (map string_bytes words.now) → ⊥) (λ _. SpellsCheck (map string_bytes words.now)) }
{
    let [name, module] = words else {
        return None;
    };
    if name.as_str() != "check" || module.is_empty() {
        return None;
    }
    Some(())
}

// The reductions of the copy that the words ask for, if they do.
fn copy_of(words: &[String]) -> Option<u32>
    ensures { MatchOption result ((n : ℕ) → SpellsCopy (map string_bytes words.now) n → ⊥) (λ n. SpellsCopy (map string_bytes words.now) n) }
{
    let [name, module, order, reductions] = words else {
        return None;
    };
    if name.as_str() != "copy" || module.is_empty() || order.is_empty() {
        return None;
    }
    let Some(reductions) = number(reductions.as_str(), 1, MOST_REDUCTIONS) else {
        return None;
    };
    Some(reductions)
}

// The generated module whose text the words ask for, if they do.
fn gen_of(words: &[String]) -> Option<Generated>
    ensures { MatchOption result ((input : Generated) → SpellsGen (map string_bytes words.now) input → ⊥) (λ input. SpellsGen (map string_bytes words.now) input) }
{
    let [name, seed, size] = words else {
        return None;
    };
    if name.as_str() != "gen" {
        return None;
    }
    let Some(input) = generated_of(seed.as_str(), size.as_str()) else {
        return None;
    };
    Some(input)
}

// The command that waits for nothing that the words spell, if they spell one.
fn plain_of(words: &[String]) -> Option<Plain>
    ensures { MatchOption result ((plain : Plain) → SpellsPlain (map string_bytes words.now) plain → ⊥) (λ plain. SpellsPlain (map string_bytes words.now) plain) }
{
    if let Some(()) = check_of(words) {
        return Some(Plain::Check);
    }
    if let Some(reductions) = copy_of(words) {
        return Some(Plain::Copy { reductions });
    }
    let Some(Generated { seed, size }) = gen_of(words) else {
        return None;
    };
    Some(Plain::Gen { seed, size })
}

// The command that the words spell, if they spell one.
pub(crate) fn command_of(words: &[String]) -> Option<Command>
    ensures { MatchOption result ((command : Command) → SpellsCommand (map string_bytes words.now) command → ⊥) (λ command. SpellsCommand (map string_bytes words.now) command) }
{
    if let Some(run) = run_of(words) {
        return Some(Command::Run(run));
    }
    if let Some(load) = load_of(words) {
        return Some(Command::Load(load));
    }
    let Some(plain) = plain_of(words) else {
        return None;
    };
    Some(Command::Plain(plain))
}
