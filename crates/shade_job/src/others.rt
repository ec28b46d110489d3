//! Names of members that no rule asks for.

ghost use Rattle.std.specs.Prelude.{◌≡◌, option_map};
ghost use Rattle.serde_json.specs.View.{view, members_view};
ghost use Rattle.shade_job.specs.Rules.{is_known, other_in, other_of};

use serde_json::{Map, Value};

/// Whether a rule asks for a member with this name.
fn is_known(name: &str) -> bool
    ensures { result ≡ is_known name.now }
{
    name == "version"
        || name == "entry"
        || name == "groups"
        || name == "group"
        || name == "buffers"
        || name == "schedule"
        || name == "steps"
}

/// The first name of a member of a job that no rule asks for.
pub(crate) fn other_member(job: &Value) -> Option<&str>
    ensures { option_map (λ name. name.now) result ≡ other_of is_known (view job.now) }
{
    first_other(job.as_object()?)
}

fn first_other(members: &Map<String, Value>) -> Option<&str>
    ensures { option_map (λ name. name.now) result ≡ other_in is_known (members_view members.now.entries) }
{
    for (name, _) in members {
        if !is_known(name.as_str()) {
            return Some(name.as_str());
        }
    }
    None
}
