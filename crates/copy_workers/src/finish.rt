// One job on one lane.
ghost use Rattle.std.specs.Prelude.{◌≡◌, [], OnOk};
ghost use Rattle.copy_workers.specs.Lanes.{Calm, Keeps, EndsAs};

use crate::cause::Cause;
use crate::lane::BlobLane;
use crate::receipt::How;
use digest_reader::Job;

/// Does a job: nothing where the blob is there, else it is carried.
pub(crate) fn finish<L: BlobLane>(lane: &mut L, job: &Job) -> Result<How, Cause>
    requires calm { Calm L.tells lane.old }
    requires unasked { L.tells.asked lane.old job.now ≡ [] }
    ensures ends { EndsAs L.tells lane.new job.now result }
    ensures calm { OnOk result (Calm L.tells lane.new) }
    ensures named { L.tells.named lane.new job.now ≡ L.tells.named lane.old job.now }
    ensures kept { Keeps L.tells job.now lane.old lane.new }
{
    if lane.have(job)? {
        return Ok(How::Present);
    }
    lane.carry(job)?;
    Ok(How::Carried)
}
