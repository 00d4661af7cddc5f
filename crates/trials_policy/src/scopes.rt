// The choice among the lists of a policy, and the scopes of an image in their order.
use image_ref::parse_place;
use policy_file::{Policy, read_policy};
use policy_scope::{Identity, choose};
use skopeo_outside::{Memory, Text};
use std::alloc::Global;

fn choice_of(alloc: Global, policy: &Policy, identity: &Identity) -> Result<Text, Memory> {
    let chosen = choose(policy, identity);
    Ok(Text::from_string(format!(in alloc; "{chosen:?}")?))
}

fn choice_at(alloc: Global, policy: &Policy, text: &str) -> Result<Text, Memory> {
    match parse_place(alloc, text, "/w") {
        Ok(place) => choice_of(alloc, policy, &Identity::of(alloc, &place)?),
        Err(fault) => Ok(Text::from_string(format!(in alloc; "{fault:?}")?)),
    }
}

/// What is chosen for a place, behind which a policy stands, or none for the one that accepts all.
pub fn choice(alloc: Global, row: &str) -> Result<Text, Memory> {
    let Some((place, policy)) = row.split_once(" | ") else {
        return choice_at(alloc, &Policy::accept_all(alloc)?, row);
    };
    match read_policy(alloc, policy.as_bytes()) {
        Ok(policy) => choice_at(alloc, &policy, place),
        Err(fault) => Ok(Text::from_string(format!(in alloc; "{fault:?}")?)),
    }
}

/// The reference that signatures are compared with.
pub fn compared(alloc: Global, text: &str) -> Result<Text, Memory> {
    match parse_place(alloc, text, "/w") {
        Ok(place) => match Identity::of(alloc, &place)?.named() {
            Some(reference) => reference.write_text(alloc),
            None => Text::from_str(alloc, "none"),
        },
        Err(fault) => Ok(Text::from_string(format!(in alloc; "{fault:?}")?)),
    }
}

/// One scope more, whose list refuses, unless it was found.
fn push_scope(alloc: Global, text: &mut Text, found: &[String], scope: &str) -> Result<(), Memory> {
    if !found.iter().any(|known| known.as_str() == scope) {
        text.push_str(format!(in alloc; ",{scope:?}:[{{\"type\":\"reject\"}}]")?.as_str())?;
    }
    Ok(())
}

/// Each end of a text behind each of three fronts.
fn push_ends(alloc: Global, text: &mut Text, found: &[String], part: &str) -> Result<(), Memory> {
    for (at, _) in part.char_indices() {
        let end = part.get(at..).unwrap_or("");
        for front in ["", "*", "*."] {
            push_scope(
                alloc,
                text,
                found,
                format!(in alloc; "{front}{end}")?.as_str(),
            )?;
        }
    }
    push_scope(alloc, text, found, "")
}

/// Each front of a text, and where a part of it ends the ends of the front; then the end of the policy.
fn push_fronts(
    alloc: Global,
    text: &mut Text,
    found: &[String],
    whole: &str,
) -> Result<(), Memory> {
    for (at, c) in whole.char_indices() {
        let front = whole.get(..at).unwrap_or("");
        if matches!(c, '/' | ':' | '@') {
            push_ends(alloc, text, found, front)?;
        } else {
            push_scope(alloc, text, found, front)?;
        }
    }
    push_ends(alloc, text, found, whole)?;
    text.push_str("}}}")
}

/// A policy that accepts, up to the scopes of a transport.
fn policy_front(alloc: Global, transport: &str) -> Result<Text, Memory> {
    Ok(Text::from_string(format!(in alloc;
        "{{\"default\":[{{\"type\":\"insecureAcceptAnything\"}}],\"transports\":{{\"{transport}\":{{\"|\":[{{\"type\":\"reject\"}}]"
    )?))
}

/// A policy that accepts, and refuses each part of a text behind each of three fronts, but for the scopes that were found.
fn parts_policy(
    alloc: Global,
    transport: &str,
    whole: &str,
    found: &[String],
) -> Result<Text, Memory> {
    let mut text = policy_front(alloc, transport)?;
    push_fronts(alloc, &mut text, found, whole)?;
    Ok(text)
}

/// The scope that counts for an image, where one does.
fn scope_of(alloc: Global, policy: &Policy, identity: &Identity) -> Result<Option<String>, Memory> {
    match choose(policy, identity).scope {
        Some(scope) => Ok(Some(String::from_str(alloc, scope)?)),
        None => Ok(None),
    }
}

/// The scope that counts by the policy of a text, where one does.
fn scope_by(alloc: Global, text: &str, identity: &Identity) -> Result<Option<String>, Memory> {
    match read_policy(alloc, text.as_bytes()) {
        Ok(policy) => scope_of(alloc, &policy, identity),
        Err(_) => Ok(None),
    }
}

/// The scope that counts where those that were found are left out.
fn next_scope(
    alloc: Global,
    transport: &str,
    whole: &str,
    found: &[String],
    identity: &Identity,
) -> Result<Option<String>, Memory> {
    let text = parts_policy(alloc, transport, whole, found)?;
    scope_by(alloc, text.as_str(), identity)
}

fn ordered(
    alloc: Global,
    transport: &str,
    whole: &str,
    identity: &Identity,
) -> Result<Text, Memory> {
    let mut found = Vec::new(alloc);
    for _ in 0..100 {
        match next_scope(alloc, transport, whole, found.as_slice(), identity)? {
            Some(scope) => found.push(scope)?,
            None => break,
        }
    }
    Ok(Text::from_string(format!(in alloc; "{found:?}")?))
}

/// The scopes of a place in the order in which they count, found among all parts of the text that stands before the place.
pub fn scopes(alloc: Global, row: &str) -> Result<Text, Memory> {
    let (whole, place) = row.split_once(" | ").unwrap_or(("", row));
    let transport = place.split(':').next().unwrap_or("");
    match parse_place(alloc, place, "/w") {
        Ok(place) => ordered(alloc, transport, whole, &Identity::of(alloc, &place)?),
        Err(fault) => Ok(Text::from_string(format!(in alloc; "{fault:?}")?)),
    }
}
