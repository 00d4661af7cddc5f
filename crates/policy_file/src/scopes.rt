// The scopes of one transport in an ordered map, seen as their list.
ghost use Rattle.std.specs.Prelude.{◌≡◌, [], List, option_map, IfSome, OnOk};
ghost use Rattle.policy_file.specs.PolicyLists.{list_at, with_scope};

use crate::requirement::Requirement;
use skopeo_outside::{Many, Memory};
use std::alloc::Global;
use std::collections::BTreeMap;
use std::marker::Model;

/// The scopes of a transport with their lists, in byte order.
#[derive(Debug, Drop)]
pub(crate) struct Scopes {
    lists: BTreeMap<String, Many<Requirement>>,
}

impl Model for Scopes {
    ghost use Rattle.std.specs.Prelude.{List};
    ghost use Rattle.policy_file.specs.PolicyLists.{Scope};

    ghost Value = { List Scope };

    ghost use Rattle.policy_file.specs.ScopeMap.{scopes_view};

    ghost view = { λ s. scopes_view s.lists.entries };
}

impl Scopes {
    pub(crate) fn new(alloc: Global) -> Self
        ensures { result ≡ [] }
    {
        Scopes {
            lists: BTreeMap::new(alloc),
        }
    }

    /// Adds a scope, in the place of one with its name.
    pub(crate) fn add(
        &mut self,
        alloc: Global,
        name: &str,
        list: Many<Requirement>,
    ) -> Result<(), Memory>
        ensures { OnOk result (self.new ≡ with_scope name.now list self.old) }
    {
        let name = String::from_str(alloc, name)?;
        self.lists.insert(name, list)?;
        Ok(())
    }

    /// The scope of that name with its list.
    pub(crate) fn get(&self, name: &str) -> Option<(&str, &[Requirement])>
        ensures list { option_map (λ e. e.1.now) result ≡ list_at name.now self.now }
        ensures scope { IfSome result (λ e. e.0.now ≡ name.now) }
    {
        match self.lists.get_key_value(name) {
            Some((scope, list)) => Some((scope.as_str(), list.as_slice())),
            None => None,
        }
    }
}
