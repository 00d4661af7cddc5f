// What becomes of jobs.
ghost use Rattle.std.specs.Prelude.{◌≡◌};

use crate::cause::Cause;
use location_cache::Cache;
use skopeo_outside::Many;
use std::marker::Model;

/// How a job was secured.
#[derive(Clone, Copy, Debug, PartialEq, Eq)]
pub enum How {
    /// The destination had the blob.
    Present,
    /// It was mounted there from another repository.
    Mounted,
    /// It was carried there from the source.
    Carried,
}

/// What became of a job on a lane.
#[derive(Debug, Drop)]
pub(crate) struct Outcome {
    pub(crate) job: u32,
    pub(crate) lane: u32,
    pub(crate) end: Result<How, Cause>,
}

/// A job that is secured. `secure_all` alone makes one.
#[derive(Debug, Drop)]
pub struct Receipt {
    pub(crate) job: u32,
    pub(crate) lane: u32,
    pub(crate) how: How,
}

impl Model for Receipt {
    ghost use Rattle.copy_workers.specs.Receipts.{Issued};

    ghost Value = { Issued };

    ghost view = { λ r. record { job = r.job; lane = r.lane; how = r.how } };
}

impl Receipt {
    /// The job's number, from 1.
    pub fn job(&self) -> u32
        ensures { result ≡ self.now.job }
    {
        self.job
    }

    /// The place of the lane that secured it, from 0.
    pub fn lane(&self) -> u32
        ensures { result ≡ self.now.lane }
    {
        self.lane
    }

    /// How its lane secured it, which is what the lane answered.
    pub fn how(&self) -> How
        ensures { result ≡ self.now.how }
    {
        self.how
    }
}

/// The least job that failed, by its number from 1, and why. Job 0 is want of memory before a lane was used.
#[derive(Debug, Drop)]
pub struct JobFault {
    /// The job's number.
    pub job: u32,
    /// What a lane tells of the job.
    pub cause: Cause,
}

/// What running all jobs comes to: receipts in the order of the jobs, or the least job that failed; and the cache.
#[derive(Drop)]
pub struct Done {
    /// A receipt for each job, in their order, or the least job that failed.
    pub outcome: Result<Many<Receipt>, JobFault>,
    /// The cache that was handed in.
    pub cache: Cache,
}
