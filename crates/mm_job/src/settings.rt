//! How a job is asked.
use mm_formula::{Formula, Scoped};
use std::alloc::Global;
use std::marker::Model;

/// The limit on sizes, and how the query line is read. Contracts see both.
#[derive(Drop)]
pub struct Settings {
    limit: u64,
    /// The query that the word `minor` stands for as the query line; without one the line spells its query.
    given: Option<Scoped>,
}

impl Model for Settings {
    ghost use Rattle.mm_job.specs.Settings.{Settings as SettingsOf, settings_code};

    ghost Value = { SettingsOf };

    ghost coded = { settings_code };

    ghost use Rattle.mm_job.specs.State.Questions.{AreSettings, settings_of};

    ghost view = { settings_of };

    ghost invariant = { AreSettings };
}

impl Settings {
    ghost use Rattle.std.specs.Prelude.{◌≡◌, ◌≤◌, true, None, IfNone, IfSome};
    ghost use Rattle.mm_formula.specs.Scope.{scope_fault};
    ghost use Rattle.mm_formula.specs.Syntax.{is_well_sorted, syntax_of};
    ghost use Rattle.mm_header.specs.Queries.Question.{Minor, Spelled};
    ghost use Rattle.mm_header.specs.QueryValues.{query_value};
    ghost use Rattle.mm_job.specs.Settings.{spelled, with_formula};
    ghost use Rattle.mm_nodes.specs.declared.TheConstants.{MAX_LIMIT};

    /// The query line spells the query.
    pub fn spelled(limit: u64) -> Settings
        requires { limit ≤ MAX_LIMIT }
        ensures { result ≡ spelled limit }
    {
        Settings { limit, given: None }
    }

    /// The query line is the word `minor`, which asks whether this formula holds.
    pub fn with_formula(alloc: Global, limit: u64, formula: Formula) -> Settings
        requires limit { limit ≤ MAX_LIMIT }
        requires sorted { is_well_sorted (syntax_of formula) ≡ true }
        requires scoped { scope_fault (syntax_of formula) None ≡ None }
        ensures { result ≡ with_formula limit (syntax_of formula) }
    {
        match Scoped::of(alloc, formula, None) {
            Ok(query) => Settings {
                limit,
                given: Some(query),
            },
            Err(_) => unreachable!(),
        }
    }

    /// The limit on sizes.
    pub fn limit(&self) -> u64
        ensures limit { result ≡ self.now.limit }
        ensures most { result ≤ MAX_LIMIT }
    {
        self.limit
    }

    /// The query that the word `minor` stands for as the query line, where it does.
    pub fn given(&self) -> Option<&Scoped>
        ensures spelled { IfNone result (self.now.question ≡ Spelled) }
        ensures given { IfSome result (λ query. self.now.question ≡ Minor (query_value query.now)) }
    {
        self.given.as_ref()
    }
}
