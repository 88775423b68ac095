//! What is taken away where a file of the host is replaced.
use crate::claims::past_links;
use crate::identity::Identity;
use host_interface::new_name;
use std::alloc::Global;
use std::rt::Files;
use std::{fs, io};

/// The file that a name leads to, and what stands where its new file is made, as far as they are there.
#[derive(Clone, Copy)]
pub struct Replaced {
    file: Option<Identity>,
    beside: Option<Identity>,
}

impl Replaced {
    /// What a file in the place of the one of a name takes away.
    pub fn of<R: Files>(rt: &R, alloc: Global, name: &str) -> io::Result<Replaced> {
        let path = past_links(rt, alloc, name)?;
        let beside = new_name(alloc, path.as_str())?;
        Ok(Replaced {
            file: identity_at(rt, path.as_str()),
            beside: identity_at(rt, beside.as_str()),
        })
    }

    /// Nothing.
    pub fn none() -> Replaced {
        Replaced {
            file: None,
            beside: None,
        }
    }

    /// Whether a file is among what is taken away.
    pub fn has(&self, identity: Identity) -> bool {
        self.file == Some(identity) || self.beside == Some(identity)
    }
}

fn identity_at<R: Files>(rt: &R, path: &str) -> Option<Identity> {
    match fs::symlink_metadata(rt, path) {
        Ok(found) => Some(Identity::of(&found)),
        Err(_) => None,
    }
}
