// A policy, seen as its lists.
ghost use Rattle.std.specs.Prelude.{◌≡◌, option_map, IfOk, IfSome};
ghost use Rattle.policy_file.specs.PolicyLists.{PolicyLists, list_at, of_default, accepting, with_transport};
ghost use Rattle.policy_file.specs.Lookup.{scopes_for};

use crate::requirement::Requirement;
use crate::scopes::Scopes;
use skopeo_outside::{Many, Memory};
use std::alloc::Global;
use std::marker::Model;

/// The transports whose scopes a policy keeps.
#[derive(Clone, Copy, Debug, PartialEq, Eq)]
pub enum Transport {
    Docker,
    Dir,
    Oci,
}

/// A policy: the default list, and the lists of the scopes of each transport.
#[derive(Debug, Drop)]
pub struct Policy {
    default: Many<Requirement>,
    docker: Scopes,
    dir: Scopes,
    oci: Scopes,
}

impl Model for Policy {
    ghost use Rattle.policy_file.specs.PolicyLists.{PolicyLists};

    ghost Value = { PolicyLists };

    ghost view = { λ p. record { default = p.default; docker = p.docker; dir = p.dir; oci = p.oci } };
}

impl Policy {
    /// The policy that accepts every image.
    pub fn accept_all(alloc: Global) -> Result<Policy, Memory>
        ensures { IfOk result (λ p. p ≡ accepting) }
    {
        let mut list = Many::new(alloc);
        list.push(Requirement::Accept)?;
        Ok(Policy::of_default(alloc, list))
    }

    pub(crate) fn of_default(alloc: Global, default: Many<Requirement>) -> Policy
        ensures { result ≡ of_default default }
    {
        Policy {
            default,
            docker: Scopes::new(alloc),
            dir: Scopes::new(alloc),
            oci: Scopes::new(alloc),
        }
    }

    /// Keeps the scopes of a known transport.
    pub(crate) fn keep(&mut self, transport: &str, scopes: Scopes)
        ensures { self.new ≡ with_transport transport.now scopes self.old }
    {
        match transport {
            "docker" => self.docker = scopes,
            "dir" => self.dir = scopes,
            "oci" => self.oci = scopes,
            _ => {}
        }
    }

    /// The list for images whose scopes the policy lacks.
    pub fn default_list(&self) -> &[Requirement]
        ensures { result.now ≡ self.now.default }
    {
        self.default.as_slice()
    }

    /// The scope of that name with its list, where the policy has it for the transport.
    /// The search takes no memory, and its work grows with the logarithm of the count of scopes.
    pub fn list_at(&self, transport: Transport, scope: &str) -> Option<(&str, &[Requirement])>
        ensures list { option_map (λ e. e.1.now) result
            ≡ list_at scope.now (scopes_for transport self.now) }
        ensures scope { IfSome result (λ e. e.0.now ≡ scope.now) }
    {
        match transport {
            Transport::Docker => self.docker.get(scope),
            Transport::Dir => self.dir.get(scope),
            Transport::Oci => self.oci.get(scope),
        }
    }
}
