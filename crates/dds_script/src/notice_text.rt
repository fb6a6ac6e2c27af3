//! How notices are printed, and that a listener was set.

use crate::matching::Side;
use crate::printing::TranscriptLine;
use dds_base::Code;
use dds_notices::{Listener, Notice, Status};

impl TranscriptLine {
    fn push_status(&mut self, status: Status) {
        match status {
            Status::SampleLost(values) => self.push_sample_lost(values),
            Status::DataAvailable => self.push("data"),
            Status::LivelinessLost(values) => self.push_liveliness_lost(values),
            Status::LivelinessChanged(values) => self.push_liveliness_changed(values),
            Status::PublicationMatched(values) => self.push_matched(Side::Writer, values),
            Status::SubscriptionMatched(values) => self.push_matched(Side::Reader, values),
        }
    }

    fn push_notice(&mut self, notice: Notice) {
        self.push(" [");
        self.push_entity(notice.entity);
        self.push(' ');
        self.push_status(notice.status);
        self.push(']');
    }

    fn push_notices<L: Listener>(&mut self, listener: &L) {
        for at in 0..listener.room() {
            match listener.held(at) {
                Some(notice) => self.push_notice(notice),
                None => break,
            }
        }
    }

    /// That a listener was set, or taken away, with the notices of the one that was there before; or why it was not.
    pub fn push_listener_set<L: Listener>(&mut self, set: &Result<Option<L>, Code>) {
        match set {
            Ok(None) => self.push("ok"),
            Ok(Some(old)) => {
                self.push("ok old");
                self.push_notices(old);
            }
            Err(code) => self.push_code(*code),
        }
    }
}
