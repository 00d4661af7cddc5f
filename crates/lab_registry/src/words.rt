// The words of the command line.
ghost use Rattle.std.specs.Prelude.{◌≡◌, [], ◌∷◌, map};
ghost use Rattle.std.specs.String.{string_bytes};
ghost use Rattle.lab_registry.specs.Words.{ReadsPort, ReadsCount, ReadsTask};

/// What the words ask for.
#[derive(Clone, Copy, Debug, PartialEq, Eq)]
pub enum Task {
    Verifier,
    /// A registry at this port, which answers so many connections.
    Registry(u16, u32),
}

fn read_port(word: &str) -> Option<u16>
    ensures { ReadsPort word.now result }
{
    match word.parse::<u16>() {
        Ok(port) => {
            if port == 0 {
                return None;
            }
            Some(port)
        }
        Err(_) => None,
    }
}

fn read_count(word: &str) -> Option<u32>
    ensures { ReadsCount word.now result }
{
    match word.parse::<u32>() {
        Ok(count) => Some(count),
        Err(_) => None,
    }
}

#[tactic(auto, using(crate::proofs::WordLemmas::no_name, crate::proofs::WordLemmas::no_port, crate::proofs::WordLemmas::no_count, crate::proofs::WordLemmas::is_registry))]
fn read_three(name: &str, port: &str, count: &str) -> Option<Task>
    ensures { ReadsTask (name.now ∷ port.now ∷ count.now ∷ []) result }
{
    if name != "registry" {
        return None;
    }
    let Some(number) = read_port(port) else {
        return None;
    };
    let Some(many) = read_count(count) else {
        return None;
    };
    Some(Task::Registry(number, many))
}

/// What the words ask for, and `None` where they ask for nothing that the program knows.
#[tactic(auto, using(crate::proofs::WordLemmas::of_three))]
pub fn read_task(words: &[String]) -> Option<Task>
    ensures exact { ReadsTask (map string_bytes words.now) result }
{
    match words {
        [] => Some(Task::Verifier),
        [name, port, count] => read_three(name.as_str(), port.as_str(), count.as_str()),
        _ => None,
    }
}
