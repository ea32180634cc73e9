//! How the requests of a front proxy give those of its clients.
ghost use Rattle.std.specs.Prelude.{◌≡◌, IfOk, MatchOption, MatchResult, option_map};
ghost use Rattle.head_map.specs.Mapped.{mapping_view, parts_view};
ghost use Rattle.head_map.specs.Paths.{HasTargetFault};
ghost use Rattle.serve_config.specs.declared.config.Paths.TheVariants.{Strict};
ghost use Rattle.serve_core.specs.Rules.{IsJudgedClient, IsJudgedTarget, IsUnjudged};

use crate::unjudged::{Unjudged, unjudged_fields, unjudged_path};
use head_map::{Mapping, Parts, PathFault, mapped_of, path_is_strict};
use serve_config::{Paths, ServeConfig};
use std::alloc::{AllocError, Global};

/// How the requests of a front proxy give those of its clients.
#[derive(Clone, Copy)]
pub struct MappingRule<'m> {
    /// Which fields hold the request of the client, and which have to be there.
    pub mapping: &'m Mapping,
    /// Which paths are judged.
    pub paths: Paths,
}

impl<'m> MappingRule<'m> {
    ghost use Rattle.serve_core.specs.ClientRequests.{rule_view};
    ghost use Rattle.serve_core.specs.Setups.{IsRuleBy};

    /// The rule of these settings; none if each request is judged as it was sent.
    pub fn of(settings: &'m ServeConfig) -> Option<MappingRule<'m>>
        ensures { IsRuleBy (mapping_view settings.now.mapping) settings.now.paths (option_map rule_view result) }
    {
        let mapping = &settings.mapping;
        let paths = settings.paths;
        let is_empty = mapping.named().is_empty() && mapping.required().is_empty();
        if is_empty && paths == Paths::AsSent {
            return None;
        }
        Some(MappingRule { mapping, paths })
    }

    /// The request of the client, as this one of its front gives it.
    pub(crate) fn client_of(
        self,
        alloc: Global,
        parts: Parts,
    ) -> Result<Result<Parts, Unjudged>, AllocError>
        ensures { let m = mapping_view self.entry.mapping.now in IfOk result (λ found. MatchResult found
            (λ client. IsJudgedClient m self.entry.paths (parts_view parts) (parts_view client))
            (IsUnjudged m self.entry.paths (parts_view parts))) }
    {
        let client = match mapped_of(alloc, self.mapping, parts)? {
            Ok(client) => client,
            Err(fault) => return Ok(Err(unjudged_fields(fault))),
        };
        match self.fault_of(client.target.as_str()) {
            Some(fault) => Ok(Err(unjudged_path(fault, client))),
            None => Ok(Ok(client)),
        }
    }

    // The fault of a target, if paths are to have none.
    fn fault_of(self, target: &str) -> Option<PathFault>
        ensures { MatchOption result (IsJudgedTarget self.entry.paths target.now)
            (λ fault. (self.entry.paths ≡ Strict) × HasTargetFault fault target.now) }
    {
        match self.paths {
            Paths::AsSent => None,
            Paths::Strict => path_is_strict(target),
        }
    }
}
