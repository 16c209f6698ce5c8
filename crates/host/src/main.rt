// A host program, to read: it makes a table in small grants beside other duties, and prints what it sees.
//
// The hall has four points: legs 0 to 1 and 1 to 2 of cost 2, 0 to 2 of cost 5, 2 to 0 of cost 9. Held to this program's
// `stdout`. It promises nothing, and uses the library as any program may.
#![tactic(auto)]

use anyhow::Context;
use chains::Chain;
use job::{Job, LayingPermit, Refused, RestingPermit};
use model::Answer;
use queue::Queue;
use ring::Ring;
use rules::{Rule, RunningTime, WorstLeg};

// A table in the making: where the program prints, the job, and the queue and the rule that the job's calls are lent.
#[derive(Drop)]
struct Making<'a, Q: Queue + Drop, R: Rule + Drop> {
    rt: &'a HostRuntime,
    job: Job,
    queue: Q,
    rule: R,
}

impl<'a, Q: Queue + Drop, R: Rule + Drop> Making<'a, Q, R> {
    // Makes the hall.
    fn make(&mut self) -> anyhow::Result<LayingPermit> {
        let permit = self.job.make(4, 9)?;
        for (from, to, cost) in [(0, 1, 2), (1, 2, 2), (0, 2, 5), (2, 0, 9)] {
            self.job.lay(&permit, from, to, cost)?;
        }
        Ok(permit)
    }

    fn open(&mut self, permit: LayingPermit) -> anyhow::Result<RestingPermit> {
        Ok(self.job.open(permit, &mut self.queue, &self.rule)?)
    }

    // One grant of work; tells how many pairs it settled.
    fn grant(&mut self, permit: RestingPermit, budget: u32) -> anyhow::Result<RestingPermit> {
        let worked = self.job.work(permit, &mut self.queue, &self.rule, budget)?;
        let settled = worked.settled;
        println!(self.rt; "a grant of {budget}: settled {settled}")?;
        Ok(worked.permit)
    }

    // One unit by hand: draws a pair and spreads it. A docket that comes back is spent before anything else is done.
    fn unit(&mut self, permit: RestingPermit) -> anyhow::Result<RestingPermit> {
        let docket = self.job.draw(permit, &mut self.queue)?;
        let from = docket.from();
        let to = docket.to();
        match self.job.spread(docket, &mut self.queue, &self.rule) {
            Ok(permit) => {
                println!(self.rt; "drawn and spread by hand: from {from} to {to}")?;
                Ok(permit)
            }
            Err(Refused { refusal, token }) => {
                let _ = self.job.abandon(token);
                Err(refusal.into())
            }
        }
    }

    // Draws a pair, and gives it up: the table is emptied, and the legs stand.
    fn give_up(&mut self, permit: RestingPermit) -> anyhow::Result<LayingPermit> {
        let docket = self.job.draw(permit, &mut self.queue)?;
        let permit = self.job.abandon(docket)?;
        println!(self.rt; "drawn and abandoned")?;
        Ok(permit)
    }

    // Looks a pair up.
    fn look(&self, from: usize, to: usize) -> anyhow::Result<()> {
        match self.job.look_up(&self.queue, from, to) {
            Ok(Answer::Value { value, last }) => println!(self.rt;
                "from {from} to {to}: {value}, by leg {last:?} at last"
            )?,
            Ok(Answer::NoWay) => println!(self.rt; "from {from} to {to}: no way")?,
            Ok(Answer::NotYet { floor }) => println!(self.rt;
                "from {from} to {to}: not yet, floor {floor}"
            )?,
            Err(refusal) => {
                let number = u32::from(refusal);
                println!(self.rt; "from {from} to {to}: refused with {number}")?;
            }
        }
        Ok(())
    }

    // Reads a route.
    fn route(&self, from: usize, to: usize) -> anyhow::Result<()> {
        let mut legs = [99usize; 4];
        match self.job.route(from, to, &mut legs) {
            Ok(count) => println!(self.rt;
                "the route from {from} to {to} has {count} legs: {legs:?}"
            )?,
            Err(refusal) => {
                let number = u32::from(refusal);
                println!(self.rt; "the route from {from} to {to}: refused with {number}")?;
            }
        }
        Ok(())
    }

    fn tally(&self) -> anyhow::Result<()> {
        let tally = self.job.tally();
        println!(self.rt; "{tally:?}")?;
        Ok(())
    }

    // The same hall again, by another rule.
    fn reopened<S: Rule + Drop>(
        mut self,
        permit: RestingPermit,
        rule: S,
    ) -> anyhow::Result<(Making<'a, Q, S>, LayingPermit)> {
        let permit = self.job.reopen(permit)?;
        Ok((
            Making {
                rt: self.rt,
                job: self.job,
                queue: self.queue,
                rule,
            },
            permit,
        ))
    }
}

// The hall by running time: in grants, by hand, and once given up.
fn by_running_time<Q: Queue + Drop>(
    making: &mut Making<'_, Q, RunningTime>,
) -> anyhow::Result<RestingPermit> {
    let permit = making.make()?;
    let permit = making.open(permit)?;
    let permit = making.grant(permit, 2)?;
    let permit = making.give_up(permit)?;
    making.tally()?;
    let permit = making.open(permit)?;
    let permit = making.grant(permit, 6)?;
    let permit = making.unit(permit)?;
    making.look(2, 0)?;
    making.look(0, 3)?;
    making.route(2, 0)?;
    let permit = making.grant(permit, 20)?;
    making.look(0, 2)?;
    making.look(0, 3)?;
    making.look(4, 0)?;
    making.route(1, 0)?;
    making.route(0, 0)?;
    making.tally()?;
    Ok(permit)
}

// The same hall again by its worst legs.
fn by_worst_leg<Q: Queue + Drop>(
    making: &mut Making<'_, Q, WorstLeg>,
    permit: LayingPermit,
) -> anyhow::Result<()> {
    making.tally()?;
    let permit = making.open(permit)?;
    let _permit = making.grant(permit, 20)?;
    making.look(0, 2)?;
    making.route(0, 2)?;
    making.tally()
}

fn main(rt: HostRuntime) -> anyhow::Result<()> {
    let mut slots = [Chain::new(); 10];
    let mut cells = [ring::Cell::new(); 16];
    let mut making = Making {
        rt: &rt,
        job: Job::new(rt.alloc())?,
        queue: Ring::new(&mut slots, &mut cells),
        rule: RunningTime::new(0).ok().context("no such dwell")?,
    };
    let permit = by_running_time(&mut making)?;
    let (mut making, permit) = making.reopened(permit, WorstLeg)?;
    by_worst_leg(&mut making, permit)
}
