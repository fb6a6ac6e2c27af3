//! What an access looks at.
//!
//! DDS 1.4, 2.2.2.5 (read, take).

use crate::chains::Chains;
use crate::kept::Kept;
use dds_base::ReaderQos;
use dds_instances::Instances;

/// The instances of a reader, its samples, and where those of each instance are.
#[derive(Clone, Copy)]
pub struct Content<'a> {
    pub instances: &'a Instances,
    pub qos: &'a ReaderQos,
    pub samples: &'a [Kept],
    pub chains: &'a Chains,
}
