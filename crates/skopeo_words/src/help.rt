// The pages of help, and the version.
ghost use Rattle.std.specs.Prelude.{◌≡◌};
ghost use Rattle.skopeo_words.specs.Help.{page_of, version_line};
ghost use Rattle.skopeo_words.specs.Page.{IsOn, NamesOptions};

use crate::command::CommandName;

const OVERVIEW: &str = "\
Usage: skopeo [OPTIONS] COMMAND [OPTIONS] OPERANDS

Copies container images from place to place, where a policy admits them.

Commands:
  copy                         copy one image
  sync                         copy the images of a repository or a folder
  inspect                      print what an image is
  list-tags                    print the tags at a registry
  delete                       delete an image at a registry
  make-images                  write images to try with

\"skopeo COMMAND --help\" prints the page of a command.

Options of every command:
      --policy FILE            the policy that images have to meet
      --insecure-policy        a policy that accepts everything, in its place
      --registries-conf FILE   where registries have mirrors, and other rules
      --location-cache FILE    where blobs lie at registries, from copy to copy
      --override-os NAME       the system of the image to take of a list
      --override-arch NAME     its processor
      --override-variant NAME  the processor's variant
      --lanes N                blobs carried side by side, 1 to 16 (6)

As the only word, or behind the command:
  -h, --help                   print this page, or the command's
  -v, --version                print the version

A value stands behind \"=\" or is the next word. \"--\" ends the options. What this
version does not do yet it refuses with the line 39 NotBuilt.

Exit status:
  0  done
  1  refused, by a numbered line on standard error
  2  the words are not in order
  3  a fault of files, connections, a helper or the output
  4  memory was wanting
";

const COPY: &str = "\
Usage: skopeo [OPTIONS] copy [OPTIONS] SRC DST

Copies the image at SRC to DST, where the policy admits it. SRC and DST are
dir:PATH, oci:PATH[:NAME] or docker://NAME.

Options:
  -a, --all                    copy a list whole, with all its images
      --preserve-digests       refuse where a manifest would change
      --remove-signatures      leave the image's signatures behind
  -f, --format oci|v2s2        the kind of manifest that is written
      --src-tls-verify[=BOOL]  whether the source has to use TLS
      --dest-tls-verify[=BOOL] whether the destination has to use TLS
      --lookaside URL          where stored signatures begin, http://HOST/PATH
      --verifier FILE          the program that judges signatures
  -q, --quiet                  print no lines
      --short-names            look up a name that has no host

Options of every command:
      --policy FILE            the policy that images have to meet
      --insecure-policy        a policy that accepts everything, in its place
      --registries-conf FILE   where registries have mirrors, and other rules
      --location-cache FILE    where blobs lie at registries, from copy to copy
      --override-os NAME       the system of the image to take of a list
      --override-arch NAME     its processor
      --override-variant NAME  the processor's variant
      --lanes N                blobs carried side by side, 1 to 16 (6)

A value stands behind \"=\" or is the next word. \"--\" ends the options. What this
version does not do yet it refuses with the line 39 NotBuilt.

Exit status:
  0  done
  1  refused, by a numbered line on standard error
  2  the words are not in order
  3  a fault of files, connections, a helper or the output
  4  memory was wanting
";

const SYNC: &str = "\
Usage: skopeo [OPTIONS] sync [OPTIONS] --src END --dest END SOURCE BASE

Copies a tag, a digest or all tags of SOURCE, or the images in its folders, to
places below BASE, where the policy admits them.

Options:
  -s, --src docker|dir         what SOURCE is; it has to be given
  -d, --dest docker|dir        what BASE is; it has to be given
      --scoped                 keep host and path in the names below BASE
  -a, --all                    copy a list whole, with all its images
      --preserve-digests       refuse where a manifest would change
      --remove-signatures      leave the image's signatures behind
  -f, --format oci|v2s2        the kind of manifest that is written
      --src-tls-verify[=BOOL]  whether the source has to use TLS
      --dest-tls-verify[=BOOL] whether the destination has to use TLS
      --lookaside URL          where stored signatures begin, http://HOST/PATH
      --verifier FILE          the program that judges signatures

Options of every command:
      --policy FILE            the policy that images have to meet
      --insecure-policy        a policy that accepts everything, in its place
      --registries-conf FILE   where registries have mirrors, and other rules
      --location-cache FILE    where blobs lie at registries, from copy to copy
      --override-os NAME       the system of the image to take of a list
      --override-arch NAME     its processor
      --override-variant NAME  the processor's variant
      --lanes N                blobs carried side by side, 1 to 16 (6)

A value stands behind \"=\" or is the next word. \"--\" ends the options. What this
version does not do yet it refuses with the line 39 NotBuilt.

Exit status:
  0  done
  1  refused, by a numbered line on standard error
  2  the words are not in order
  3  a fault of files, connections, a helper or the output
  4  memory was wanting
";

const INSPECT: &str = "\
Usage: skopeo [OPTIONS] inspect [OPTIONS] IMAGE

Prints what IMAGE is. No policy is applied.

Options:
      --raw                    print the bytes of the manifest
      --config                 with --raw, print the bytes of the config
  -n, --no-tags                do not ask for the list of tags
      --short-names            look up a name that has no host
      --tls-verify[=BOOL]      whether the host has to use TLS

Options of every command:
      --policy FILE            the policy that images have to meet
      --insecure-policy        a policy that accepts everything, in its place
      --registries-conf FILE   where registries have mirrors, and other rules
      --location-cache FILE    where blobs lie at registries, from copy to copy
      --override-os NAME       the system of the image to take of a list
      --override-arch NAME     its processor
      --override-variant NAME  the processor's variant
      --lanes N                blobs carried side by side, 1 to 16 (6)

A value stands behind \"=\" or is the next word. \"--\" ends the options. What this
version does not do yet it refuses with the line 39 NotBuilt.

Exit status:
  0  done
  1  refused, by a numbered line on standard error
  2  the words are not in order
  3  a fault of files, connections, a helper or the output
  4  memory was wanting
";

const LIST_TAGS: &str = "\
Usage: skopeo [OPTIONS] list-tags [OPTIONS] docker://NAME

Prints the tags at a registry.

Options:
      --tls-verify[=BOOL]      whether the host has to use TLS

Options of every command:
      --policy FILE            the policy that images have to meet
      --insecure-policy        a policy that accepts everything, in its place
      --registries-conf FILE   where registries have mirrors, and other rules
      --location-cache FILE    where blobs lie at registries, from copy to copy
      --override-os NAME       the system of the image to take of a list
      --override-arch NAME     its processor
      --override-variant NAME  the processor's variant
      --lanes N                blobs carried side by side, 1 to 16 (6)

A value stands behind \"=\" or is the next word. \"--\" ends the options. What this
version does not do yet it refuses with the line 39 NotBuilt.

Exit status:
  0  done
  1  refused, by a numbered line on standard error
  2  the words are not in order
  3  a fault of files, connections, a helper or the output
  4  memory was wanting
";

const DELETE: &str = "\
Usage: skopeo [OPTIONS] delete [OPTIONS] docker://NAME

Deletes the manifest of the image at its registry.

Options:
      --tls-verify[=BOOL]      whether the host has to use TLS

Options of every command:
      --policy FILE            the policy that images have to meet
      --insecure-policy        a policy that accepts everything, in its place
      --registries-conf FILE   where registries have mirrors, and other rules
      --location-cache FILE    where blobs lie at registries, from copy to copy
      --override-os NAME       the system of the image to take of a list
      --override-arch NAME     its processor
      --override-variant NAME  the processor's variant
      --lanes N                blobs carried side by side, 1 to 16 (6)

A value stands behind \"=\" or is the next word. \"--\" ends the options. What this
version does not do yet it refuses with the line 39 NotBuilt.

Exit status:
  0  done
  1  refused, by a numbered line on standard error
  2  the words are not in order
  3  a fault of files, connections, a helper or the output
  4  memory was wanting
";

const MAKE_IMAGES: &str = "\
Usage: skopeo [OPTIONS] make-images [OPTIONS] N BASE

Writes N images, 1 to 1,000, to BASE/src and copies each to BASE/out.

Options:
      --verifier FILE          the program that judges signatures

Options of every command:
      --policy FILE            the policy that images have to meet
      --insecure-policy        a policy that accepts everything, in its place
      --registries-conf FILE   where registries have mirrors, and other rules
      --location-cache FILE    where blobs lie at registries, from copy to copy
      --override-os NAME       the system of the image to take of a list
      --override-arch NAME     its processor
      --override-variant NAME  the processor's variant
      --lanes N                blobs carried side by side, 1 to 16 (6)

A value stands behind \"=\" or is the next word. \"--\" ends the options. What this
version does not do yet it refuses with the line 39 NotBuilt.

Exit status:
  0  done
  1  refused, by a numbered line on standard error
  2  the words are not in order
  3  a fault of files, connections, a helper or the output
  4  memory was wanting
";

/// The version's number, as `specs/Help.antt` has it.
const VERSION: &str = "skopeo 0.1.0\n";

fn page_text(page: Option<CommandName>) -> &'static str
    ensures { result.now ≡ page_of page }
{
    match page {
        None => OVERVIEW,
        Some(CommandName::Copy) => COPY,
        Some(CommandName::Sync) => SYNC,
        Some(CommandName::Inspect) => INSPECT,
        Some(CommandName::ListTags) => LIST_TAGS,
        Some(CommandName::Delete) => DELETE,
        Some(CommandName::MakeImages) => MAKE_IMAGES,
    }
}

/// The page of a command, or the one over all: its usage, its options and the exit statuses. It
/// names the options that are for the command, and no others.
pub fn help_text(page: Option<CommandName>) -> &'static str
    ensures page { result.now ≡ page_of page }
    ensures usage { IsOn page result.now }
    ensures options { NamesOptions page result.now }
{
    page_text(page)
}

/// The name of the tool and its version, as a line.
pub fn version_text() -> &'static str
    ensures line { result.now ≡ version_line }
{
    VERSION
}
