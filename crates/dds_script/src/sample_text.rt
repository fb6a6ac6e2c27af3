//! How samples are printed.

use crate::printing::TranscriptLine;
use dds_base::{InstanceState, Sample, SampleInfo, SampleState, ViewState};

fn sample_state(state: SampleState) -> char {
    match state {
        SampleState::Read => 'R',
        SampleState::NotRead => 'N',
    }
}

fn view_state(state: ViewState) -> char {
    match state {
        ViewState::New => 'N',
        ViewState::NotNew => 'O',
    }
}

fn instance_state(state: InstanceState) -> char {
    match state {
        InstanceState::Alive => 'A',
        InstanceState::NotAliveDisposed => 'D',
        InstanceState::NotAliveNoWriters => 'W',
    }
}

impl TranscriptLine {
    fn push_value(&mut self, sample: &Sample) {
        let octets = sample.value.as_slice();
        if !sample.info.valid_data {
            self.push('!');
        } else if octets.is_empty() {
            self.push('-');
        } else {
            self.push_octets(octets);
        }
    }

    fn push_states(&mut self, info: &SampleInfo) {
        let sample = sample_state(info.sample_state);
        let view = view_state(info.view_state);
        let instance = instance_state(info.instance_state);
        self.push(format_args!(" {sample} {view} {instance}"));
    }

    fn push_numbers(&mut self, info: &SampleInfo) {
        let numbers = [
            info.disposed_generation_count,
            info.no_writers_generation_count,
            info.sample_rank,
            info.generation_rank,
            info.absolute_generation_rank,
            info.source_timestamp.units(),
            info.instance_handle.number(),
            info.publication_handle.number(),
        ];
        for number in numbers {
            self.push(format_args!(" {number}"));
        }
    }

    fn push_sample(&mut self, sample: &Sample) {
        self.push(" [");
        self.push_key(sample.key);
        self.push(' ');
        self.push_value(sample);
        self.push_states(&sample.info);
        self.push_numbers(&sample.info);
        self.push(']');
    }

    pub(crate) fn push_samples(&mut self, samples: &[Sample]) {
        let count = samples.len();
        self.push(format_args!("samples {count}"));
        for sample in samples {
            self.push_sample(sample);
        }
    }
}
