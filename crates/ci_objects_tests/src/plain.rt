//! Queues as a plain list of elements, written for the test alone, and the numbers that calls are drawn by.
use ci_base::{Answer, Reply, Text};
use ci_shared::answers::{coded, numbered, refused, with_element};
use std::alloc::{AllocError, Global};

/// The next number, below 2^31.
pub fn drawn(from: u64) -> u64 {
    ((from % 2_147_483_648) * 1_103_515_245 + 12_345) % 2_147_483_648
}

#[derive(Drop)]
struct Kept {
    queue: i32,
    sort: i32,
    text: Text,
}

/// All elements in the order in which they were written, and the numbers that no queue has any more.
#[derive(Drop)]
pub struct Plain {
    kept: Vec<Kept>,
    gone: Vec<i32>,
}

impl Plain {
    pub fn new(alloc: Global) -> Plain {
        Plain {
            kept: Vec::new(alloc),
            gone: Vec::new(alloc),
        }
    }

    fn is_gone(&self, number: i32) -> bool {
        self.gone.as_slice().contains(&number)
    }

    pub fn write(&mut self, queue: i32, sort: i32, text: Text) -> Result<Answer, AllocError> {
        if self.is_gone(queue) {
            return Ok(coded(1));
        }
        if self.kept.len() >= 4096 {
            return Ok(coded(11));
        }
        self.kept.push(Kept { queue, sort, text })?;
        Ok(coded(0))
    }

    pub fn read(&mut self, queue: i32, mode: i32) -> Reply {
        if self.is_gone(queue) {
            return Reply::Answer(coded(1));
        }
        if mode != 0 && mode != 1 {
            return Reply::Answer(coded(10));
        }
        for at in 0..self.kept.len() {
            if self.kept[at].queue == queue {
                let kept = self.kept.remove(at);
                return Reply::Answer(with_element(kept.sort, kept.text));
            }
        }
        if mode == 0 {
            Reply::Answer(coded(3))
        } else {
            Reply::Waits
        }
    }

    pub fn length(&self, queue: i32) -> Answer {
        if self.is_gone(queue) {
            return refused(1);
        }
        let many = self
            .kept
            .as_slice()
            .iter()
            .filter(|kept| kept.queue == queue)
            .count();
        numbered(i32::try_from(many).unwrap_or(-1))
    }

    pub fn shut(&mut self, queue: i32) -> Result<Answer, AllocError> {
        if self.is_gone(queue) {
            return Ok(coded(1));
        }
        self.gone.push(queue)?;
        self.kept.retain(|kept| kept.queue != queue);
        Ok(coded(0))
    }
}
