//! What differs between the texts that have a header.
ghost use Rattle.std.specs.Prelude.{◌≡◌};
ghost use Rattle.mm_header.specs.Rules.{dual_rules, job_rules};

/// How long a header may be: the limits that are not the same for every text.
#[derive(Clone, Copy, Debug, PartialEq, Eq)]
pub struct HeaderRules {
    /// The most names in the `elements` lines.
    pub names: usize,
    /// The most leaves of the tree.
    pub leaves: usize,
}

impl HeaderRules {
    /// Those of a job, and of a certificate, which begins as a job does: 8192 names and 8192 leaves.
    pub fn of_job() -> HeaderRules
        ensures { result ≡ job_rules }
    {
        HeaderRules {
            names: 8192,
            leaves: 8192,
        }
    }

    /// Those of a text whose dual is asked for: 4096 names and 4096 leaves.
    pub fn of_dual() -> HeaderRules
        ensures { result ≡ dual_rules }
    {
        HeaderRules {
            names: 4096,
            leaves: 4096,
        }
    }
}
